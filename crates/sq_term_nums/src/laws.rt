//! What evaluated numbers are in a well formed term.

ghost use Rattle.sq_term_nums.specs.Laws.{ValuesAreTheirs, CountsAreTheirs};

/// Where a number has its value in 64 bits, the evaluated number is this value; and so for numbers that count.
pub fn numbers_have_their_values()
    ensures values { ValuesAreTheirs }
    ensures counts { CountsAreTheirs }
{}
