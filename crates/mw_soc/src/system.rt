ghost use Rattle.std.specs.Prelude.{◌≡◌, ◌-◌, ◌≤◌, ◌++◌, replicate};
ghost use Rattle.mw_soc.specs.Map.{system_number, system_loaded};

/// The doubleword of the system controller at an offset, or 0 where it has none.
fn system_number(offset: u64) -> u64
    ensures { result ≡ system_number offset }
{
    match offset {
        0 => 0xF00D_AA55_0001_0001,
        0x08 => 5,
        0x10 => 16777216,
        0x20 => 100000000,
        _ => 0,
    }
}

/// What a load of so many bytes at an offset of the system controller gives, with zeros behind it.
#[tactic(auto, unfolding(crate::specs::Map::system_loaded))]
pub fn system_loaded(offset: u64, width: u8) -> [u8; 8]
    requires { width ≤ 8 }
    ensures { result ≡ system_loaded offset width ++ replicate (8 - width) 0 }
{
    if width == 8 {
        system_number(offset).to_le_bytes()
    } else {
        [0; 8]
    }
}
