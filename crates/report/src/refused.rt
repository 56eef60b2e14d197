// The line of a text that is refused.
ghost use Rattle.model.specs.Refusal.{fault_number};
ghost use Rattle.printing.specs.Answers.{RefusalPrinted};

use model::Refusal;
use printing::print_refusal;

// The text is told by its file's name.
pub(crate) fn print_refused(file: &[u8], refusal: Refusal, out: &mut [u8]) -> Result<usize, Refusal>
    ensures { RefusalPrinted file.now (fault_number refusal.fault) refusal.place out.old result out.new }
{
    print_refusal(file, refusal.fault.number(), refusal.place, out)
}
