// The ends of edges: peering links.
use spec::IsdAsn;

// A peering link from one side: the AS and the interface there, and those of the other side.
#[derive(Clone, Copy)]
pub(crate) struct Link {
    pub local: IsdAsn,
    pub ingress: u16,
    pub peer: IsdAsn,
    pub interface: u16,
}
