// The reader of threshold texts.
#![tactic(auto)]

mod thresholds;

ghost use Rattle.threshold_reader.specs.Answers.{ThresholdsRead};

use model::{Refusal, Thresholds};
use reading::{answer, check_length};
use thresholds::take_text;

// A threshold text: the number of thresholds. They are read into a list that has room for every text's, so that nothing is answered
// before all is read.
pub fn read_thresholds(text: &[u8], thresholds: &mut [u32]) -> Result<usize, Refusal>
    ensures { ThresholdsRead text.now thresholds.old result thresholds.new }
{
    check_length(text)?;
    let mut list = [0u32; Thresholds::MAX_THRESHOLDS];
    let count = take_text(text, &mut list)?;
    answer(&list[..count], thresholds)
}
