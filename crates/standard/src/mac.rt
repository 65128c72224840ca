// The fold of a hop's MAC into the segment id.
ghost use Rattle.std.specs.Prelude.{◌≡◌};
ghost use Rattle.spec.specs.Assembly.{fold_step};

use spec::HopField;

// One fold step: the id XOR the first two bytes of the MAC.
pub fn mac_beta_step(accumulator: u16, mac: [u8; HopField::MAC]) -> u16
    ensures { result ≡ fold_step accumulator mac }
{
    accumulator ^ u16::from_be_bytes([mac[0], mac[1]])
}
