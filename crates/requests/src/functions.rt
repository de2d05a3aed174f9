// The functions that are served.
ghost use Rattle.std.specs.Prelude.{◌≡◌};
ghost use Rattle.modbus.specs.Mapping.{served_of};

// Unit 5 serves the first four alone.
#[tactic(auto, unfolding(modbus::specs::Mapping::served_of))]
pub(crate) fn served(unit: u8, function: u8) -> bool
    ensures { result ≡ served_of unit function }
{
    matches!(function, 0x03 | 0x04 | 0x06 | 0x10) || (unit != 5 && matches!(function, 0x17 | 0x41))
}
