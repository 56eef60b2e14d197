// Reading a threshold text.
ghost use Rattle.std.specs.Prelude.{◌≡◌, ◌≤◌, length, take};
ghost use Rattle.model.specs.Limits.{max_thresholds};
ghost use Rattle.text.specs.ThresholdText.{above_last, take_threshold_of, take_number_of, threshold_step, values};
ghost use Rattle.threshold_reader.specs.Steps.{thresholds_after, ThresholdRows, ThresholdsTaken};

use model::{Fault, Refusal, Thresholds};
use reading::read_header;
use text::Numbers;

// 19: the threshold is above the last of the first `count` in the list; of none nothing is asked.
fn is_above(list: &[u32], count: usize, t: u32) -> bool
    requires { count ≤ length list.now }
    ensures { result ≡ above_last (take count list.now) t }
{
    count == 0 || list[count - 1] < t
}

// 18 and 19 for one more threshold, stored behind the first `count`.
fn take_threshold(t: u32, count: usize, list: &mut [u32]) -> Result<(), Fault>
    requires { (count ≤ max_thresholds) × (max_thresholds ≤ length list.old) }
    ensures { take_threshold_of (take count list.old) t ≡ thresholds_after result count list.new }
{
    if Thresholds::MAX_THRESHOLDS <= count {
        return Err(Fault::BadThresholds);
    }
    if !is_above(list, count, t) {
        return Err(Fault::NotRising);
    }
    list[count] = t;
    Ok(())
}

// A row has one number.
#[tactic(auto, unfolding(crate::specs::Steps::thresholds_after, text::specs::ThresholdText::take_number_of))]
fn take_number(numbers: Numbers, count: usize, list: &mut [u32]) -> Result<(), Fault>
    requires { (count ≤ max_thresholds) × (max_thresholds ≤ length list.old) }
    ensures { take_number_of (take count list.old) numbers ≡ thresholds_after result count list.new }
{
    match numbers {
        Numbers::One(t) => take_threshold(t, count, list),
        _ => Err(Fault::NoForm),
    }
}

// One line behind the header.
fn take_line(line: &[u8], count: usize, list: &mut [u32]) -> Result<(), Fault>
    requires { (count ≤ max_thresholds) × (max_thresholds ≤ length list.old) }
    ensures { threshold_step (values (take count list.old)) line.now ≡ thresholds_after result count list.new }
{
    take_number(text::numbers_of(line, b','), count, list)
}

// The rows: the first is on line 2, each is one line.
fn take_rows(rows: &[u8], list: &mut [u32]) -> Result<usize, Refusal>
    requires { max_thresholds ≤ length list.old }
    ensures { ThresholdRows rows.now result list.new }
{
    let mut at = 0;
    let mut count = 0;
    // Each turn goes on by as many bytes as the line has, so this is no `for`.
    while at < rows.len() {
        let rest = &rows[at..];
        let line = text::csv_line(rest);
        let end = line.end;
        take_line(&rest[..end], count, list).map_err(|fault| Refusal {
            fault,
            place: count + 2,
        })?;
        at += line.next;
        count += 1;
    }
    if count == 0 {
        return Err(Refusal {
            fault: Fault::BadThresholds,
            place: 2,
        });
    }
    Ok(count)
}

// A whole text into the list.
pub(crate) fn take_text(text: &[u8], list: &mut [u32]) -> Result<usize, Refusal>
    requires { max_thresholds ≤ length list.old }
    ensures { ThresholdsTaken text.now result list.new }
{
    match read_header(b"threshold", text) {
        Some(start) => take_rows(&text[start..], list),
        None => Err(Refusal {
            fault: Fault::NoHeader,
            place: 1,
        }),
    }
}
