//! What holds of plan files that are written and read again.

ghost use Rattle.sq_filed_laws.specs.Filed.{GoodAreFiled};

use sq_layout_laws::laws::laid_out_lines_read_back;
use sq_layout_laws::sq_unplaced_laws::laws::{same_lines_are_one_plan, same_lines_are_sound};
use sq_layout_laws::sq_written_laws::laws::{
    moved_leaves_end_alike, written_plans_are_the_same, written_plans_stay_good,
};
use sq_lexer::laws::each_text_has_tokens_or_breaks;
use sq_planfile::laws::sound_lines_are_plans;
use sq_planread::laws::tokens_are_lines_or_have_a_fault;

/// What a good plan is written as is a plan file without faults that runs as the plan does.
pub fn good_plans_are_filed()
    ensures { GoodAreFiled }
{
    each_text_has_tokens_or_breaks();
    tokens_are_lines_or_have_a_fault();
    sound_lines_are_plans();
    laid_out_lines_read_back();
    same_lines_are_sound();
    same_lines_are_one_plan();
    written_plans_are_the_same();
    written_plans_stay_good();
    moved_leaves_end_alike();
}
