// The line of a refusal.
ghost use Rattle.std.specs.Prelude.{◌≡◌, leb, length};
ghost use Rattle.printing.specs.Answers.{RefusalPrinted};
ghost use Rattle.printing.specs.Bytes.{refusal_line};
ghost use Rattle.printing.specs.Writing.{Put, Room};

use crate::writing::{digit_count, put, put_field};
use model::{Fault, Refusal};

// The line is no longer than the room.
fn refusal_fits(file: &[u8], number: u32, place: usize, room: usize) -> bool
    ensures { result ≡ leb (length (refusal_line file.now number place)) room }
{
    if room < file.len() {
        return false;
    }
    // Beside the file's name: the word, the two numbers each behind a comma, and the line end.
    let rest = 8 + (1 + digit_count(number as u64)) + (1 + digit_count(place as u64)) + 2;
    rest <= room - file.len()
}

fn put_refusal(file: &[u8], number: u32, place: usize, out: &mut [u8]) -> usize
    requires { Room out.old 0 (refusal_line file.now number place) }
    ensures { Put out.old 0 (refusal_line file.now number place) out.new result }
{
    let after_word = put(out, 0, b"refused,");
    let after_file = put(out, after_word, file);
    let after_number = put_field(out, after_file, number as u64);
    let after_place = put_field(out, after_number, place as u64);
    put(out, after_place, b"\r\n")
}

// Prints `refused,FILE,NUMBER,PLACE`. Refuses a list that is too short (2).
pub fn print_refusal(
    file: &[u8],
    number: u32,
    place: usize,
    out: &mut [u8],
) -> Result<usize, Refusal>
    ensures { RefusalPrinted file.now number place out.old result out.new }
{
    if !refusal_fits(file, number, place, out.len()) {
        return Err(Refusal {
            fault: Fault::ListsDiffer,
            place: 0,
        });
    }
    Ok(put_refusal(file, number, place, out))
}
