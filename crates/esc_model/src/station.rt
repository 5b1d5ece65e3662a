ghost use Rattle.std.specs.Prelude.{◌≡◌, ◌<◌};
ghost use Rattle.esc_model.specs.Orders.{station};

/// The station address of the first slave of the line.
pub const FIRST_STATION: u16 = 0x1001;

/// The configured station address (ETG.1000.4) of a slave: 0x1001 plus its number on the line, which must be below 64.
pub fn station_address(slave: u16) -> u16
    requires { slave < 64 }
    ensures { result ≡ station slave }
{
    FIRST_STATION + slave
}
