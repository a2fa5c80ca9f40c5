//! What is found of a call.

/// What is found of a call in which memory may be refused.
#[derive(Clone, Copy, Debug, PartialEq, Eq)]
pub enum Found {
    /// What it answers and what stands then are what is wanted.
    Whole,
    /// Memory was refused outside the call, for what it is made at or compared with.
    Unmade,
    /// Memory was refused in the call, of which so many parts stand, as it told.
    Refused { parts: u64, again: Again },
    /// Something else than the contract says.
    Wrong,
}

/// What the same call comes to, made again behind a refusal.
#[derive(Clone, Copy, Debug, PartialEq, Eq)]
pub enum Again {
    /// What it answers and what stands then are what is wanted.
    Whole,
    /// Memory was refused again, and so many more parts stand, as it told.
    Refused(u64),
    /// It is refused, as any call is from then on.
    Failed,
}

impl Found {
    /// Whether the call is done, at once or made again.
    pub fn is_done(&self) -> bool {
        matches!(
            self,
            Found::Whole
                | Found::Refused {
                    again: Again::Whole,
                    ..
                }
        )
    }

    /// What is found, if all else is as it is to be too.
    pub fn and_if(self, holds: bool) -> Found {
        if holds { self } else { Found::Wrong }
    }
}

/// What is found of a call that was not refused, by whether all is as it is to be.
pub fn whole_if(holds: bool) -> Found {
    if holds { Found::Whole } else { Found::Wrong }
}

/// What is found of a call that was refused with so many parts, unless something is not as it is
/// to be.
pub fn refused(parts: u64, again: Option<Again>) -> Found {
    match again {
        Some(again) => Found::Refused { parts, again },
        None => Found::Wrong,
    }
}

/// What a call that was made again and not refused comes to, if all is as it is to be.
pub fn whole_again_if(holds: bool) -> Option<Again> {
    if holds { Some(Again::Whole) } else { None }
}

/// What a call that was refused again comes to, with so many more parts, if all is as it is to be.
pub fn refused_again_if(holds: bool, parts: u64) -> Option<Again> {
    if holds {
        Some(Again::Refused(parts))
    } else {
        None
    }
}
