// The life of a hop.
ghost use Rattle.std.specs.Prelude.{◌≡◌};
ghost use Rattle.spec.specs.Assembly.{life};

// How long a hop of so many expiry units lives, in seconds. A unit is 337.5 seconds, so the product is halved last.
pub fn exp_time_to_duration(units: u8) -> u32
    ensures { result ≡ life units }
{
    (u32::from(units) + 1) * 675 / 2
}
