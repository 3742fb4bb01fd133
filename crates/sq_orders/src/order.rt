//! One order for each way to ask for one.
ghost use Rattle.std.specs.Prelude.{◌≡◌, ◌∷◌, [], Option, Some};
ghost use Rattle.sq_port.specs.Orders.{seed_start};
ghost use Rattle.sq_orders.specs.Chosen.{chosen_held, chosen_answer, chosen_next};

use sq_port::{FirstOrder, LastOrder, ListOrder, Order, Picks, SeedOrder};

/// The order that was asked for.
#[derive(Drop)]
pub enum Chosen {
    /// Always the first of those that are ready.
    First,
    /// Always the last.
    Last,
    /// The words of a generator.
    Seed(SeedOrder),
    /// The numbers of a list, and then 0.
    List(ListOrder),
}

impl Chosen {
    /// Always the first of those that are ready.
    pub fn first() -> Chosen
        ensures { chosen_held result ≡ 0 ∷ [] }
    {
        Chosen::First
    }

    /// Always the last of them.
    pub fn last() -> Chosen
        ensures { chosen_held result ≡ 1 ∷ [] }
    {
        Chosen::Last
    }

    /// Those that the generator of this seed draws.
    pub fn seeded(seed: u64) -> Chosen
        ensures { chosen_held result ≡ 2 ∷ seed_start seed }
    {
        Chosen::Seed(SeedOrder::new(seed))
    }

    /// Those that these numbers say, one after another, and then the first.
    pub fn listed(picks: Picks) -> Chosen
        ensures { chosen_held result ≡ 3 ∷ picks }
    {
        Chosen::List(ListOrder::new(picks))
    }
}

impl Order for Chosen {
    ghost held = { λ o. Some (chosen_held o) };

    ghost answer = { chosen_answer };

    ghost next = { chosen_next };

    fn pick(&mut self, ready: u64) -> u64 {
        match self {
            Chosen::First => FirstOrder.pick(ready),
            Chosen::Last => LastOrder.pick(ready),
            Chosen::Seed(words) => words.pick(ready),
            Chosen::List(numbers) => numbers.pick(ready),
        }
    }
}
