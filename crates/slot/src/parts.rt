// The four parts of a slot.
ghost use Rattle.std.specs.Prelude.{◌≡◌};
ghost use Rattle.slot.specs.Slot.{slot_parts, lengths};

// How many chips each part has.
#[derive(Clone, Copy)]
pub struct Parts {
    pub field1: usize,
    pub midamble: usize,
    pub field2: usize,
    pub guard: usize,
}

fn lengths(field1: usize, midamble: usize, field2: usize, guard: usize) -> Parts
    ensures { result ≡ lengths field1 midamble field2 guard }
{
    Parts {
        field1,
        midamble,
        field2,
        guard,
    }
}

// The parts of a burst type, 1, 2 or 3; any other, which a C struct of settings can hold, has no field.
pub fn parts_of(kind: u32) -> Parts
    ensures { result ≡ slot_parts kind }
{
    match kind {
        1 => lengths(976, 512, 976, 96),
        2 => lengths(1104, 256, 1104, 96),
        3 => lengths(976, 512, 880, 192),
        _ => lengths(0, 0, 0, 2560),
    }
}
