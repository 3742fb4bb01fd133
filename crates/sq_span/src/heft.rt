//! How many events a part of a plan has, and what its heaviest chain weighs.

ghost use Rattle.std.specs.Prelude.{◌≡◌, min, Some, true, false};
ghost use Rattle.sq_span.specs.Hefts.{joined, both, is_lighter, known, most_weight, nothing};

// The most events of a plan whose chain is told.
const MOST_EVENTS: u64 = 65_536;

/// How many events a part has, and what its heaviest chain weighs.
#[derive(Clone, Copy, Drop)]
pub(crate) struct Heft {
    pub(crate) events: u32,
    pub(crate) weight: u128,
}

impl Heft {
    /// Of a part without an event.
    pub(crate) fn nothing() -> Heft
        ensures { result ≡ nothing }
    {
        Heft {
            events: 0,
            weight: 0,
        }
    }

    /// Of an event.
    pub(crate) fn of_event(weight: u128) -> Heft
        ensures { result ≡ record { events = 1; weight = min weight most_weight } }
    {
        Heft { events: 1, weight }
    }

    /// Of a part and the one after it; none where they have more events than a plan may have.
    pub(crate) fn in_turn(self, next: Heft) -> Option<Heft>
        ensures { result ≡ joined true self next }
    {
        let events = u64::from(self.events) + u64::from(next.events);
        if MOST_EVENTS < events {
            return None;
        }
        Some(Heft {
            events: events as u32,
            weight: self.weight.saturating_add(next.weight),
        })
    }

    /// Of two parts beside one another.
    pub(crate) fn beside(self, other: Heft) -> Option<Heft>
        ensures { result ≡ joined false self other }
    {
        let events = u64::from(self.events) + u64::from(other.events);
        if MOST_EVENTS < events {
            return None;
        }
        Some(Heft {
            events: events as u32,
            weight: if self.weight < other.weight {
                other.weight
            } else {
                self.weight
            },
        })
    }
}

// The heft of a part; one event too many where there is none.
fn known(heft: Option<Heft>) -> Heft
    ensures { result ≡ known heft }
{
    match heft {
        None => Heft {
            events: MOST_EVENTS as u32 + 1,
            weight: 0,
        },
        Some(heft) => heft,
    }
}

/// Whether of two parts beside one another the second one is chosen.
pub(crate) fn is_lighter(first: Option<Heft>, second: Option<Heft>) -> bool
    ensures { result ≡ is_lighter (known first) (known second) }
{
    let first = known(first);
    let second = known(second);
    if first.events == 0 {
        return true;
    }
    if second.events == 0 {
        return false;
    }
    first.weight < second.weight
}

/// The heft of a part and the one after it.
pub(crate) fn in_turn(first: Option<Heft>, second: Option<Heft>) -> Option<Heft>
    ensures { result ≡ both true first second }
{
    match first {
        None => None,
        Some(first) => match second {
            None => None,
            Some(second) => first.in_turn(second),
        },
    }
}

/// The heft of two parts beside one another.
pub(crate) fn beside(first: Option<Heft>, second: Option<Heft>) -> Option<Heft>
    ensures { result ≡ both false first second }
{
    match first {
        None => None,
        Some(first) => match second {
            None => None,
            Some(second) => first.beside(second),
        },
    }
}
