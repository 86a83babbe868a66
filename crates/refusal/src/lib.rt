// A refusal: document 01's number, and the place that it gives with it.
#![tactic(auto)]

ghost use Rattle.std.specs.Prelude.{◌≡◌};
ghost use Rattle.refusal.specs.Refusals.{untold_of};

#[derive(Clone, Copy)]
pub struct Refusal {
    pub number: u32,
    pub place: u32,
}

// What a refusal of the steps tells besides: the space of the name (6, 8 and 9), and the place of its first declaration (6); else
// 0.
#[derive(Clone, Copy)]
pub struct Told {
    pub space: u32,
    pub first: u32,
}

// Why a step answers no rows: the refusal, and what it tells.
#[derive(Clone, Copy)]
pub struct Refused {
    pub refusal: Refusal,
    pub told: Told,
}

// A refusal that tells nothing besides.
impl From<Refusal> for Refused {
    ghost from_gives = { λ why refused. refused ≡ untold_of why };

    fn from(refusal: Refusal) -> Refused {
        Refused {
            refusal,
            told: Told { space: 0, first: 0 },
        }
    }
}

// The numbers. The header is not that of a form,
pub const NOT_A_FORM: u32 = 1;

// the row count is out of range or not that of the length,
pub const ROW_COUNT: u32 = 2;

// the output has too little room,
pub const ROOM: u32 = 3;

// the rows make no form,
pub const BROKEN: u32 = 4;

// one scope too many is open.
pub const DEEP: u32 = 5;
