// The named blocks in their order, and the report.
ghost use Rattle.std.specs.Prelude.{◌≡◌, ◌++◌, ◌+◌, ◌*◌, ◌≤◌, ◌<◌, length, take, drop, replicate};
ghost use Rattle.mend.specs.All.{all_after, row_of, rows_of, padded, call_refusal, mended_image, report_of};

use crate::one::mend_block;
use crate::{BlockRefusal, CallRefusal};
use layout::Block;

// The three bytes of a name.
#[tactic(auto, unfolding(crate::specs::All::row_of))]
fn row_of(outcome: Result<u16, BlockRefusal>) -> [u8; 3]
    ensures { result ≡ row_of outcome }
{
    match outcome {
        Ok(changed) => [0, (changed % 256) as u8, (changed / 256) as u8],
        Err(refusal) => [refusal.number(), 0, 0],
    }
}

// All names, on a report of zeros.
fn mend_all(image: &mut [u8], names: &[u8], report: &mut [u8; 768])
    requires { (length names.now ≤ 256) × (report.old ≡ replicate 768 0) }
    ensures image_after { image.new ≡ all_after image.old names.now }
    ensures report_after { report.new ≡ padded (rows_of image.old names.now) }
{
    for i in 0..names.len() {
        let outcome = mend_block(image, Block(names[i]));
        report[3 * i..3 * i + 3].copy_from_slice(&row_of(outcome));
    }
}

// Is a call for so many names accepted?
#[tactic(auto, unfolding(crate::specs::All::call_refusal))]
fn judged(bytes: usize, names: usize) -> Result<(), CallRefusal>
    ensures { result ≡ call_refusal bytes names }
{
    if layout::sectors_of(bytes) == 0 {
        return Err(CallRefusal::NoCard);
    }
    if 256 < names {
        return Err(CallRefusal::TooManyNames);
    }
    Ok(())
}

// The call: the named blocks in order, three bytes of the report for each, and zeros behind them.
#[tactic(auto, using(crate::proofs::Ways::few), unfolding(crate::specs::All::mended_image, crate::specs::All::report_of))]
pub fn mend(image: &mut [u8], names: &[u8], report: &mut [u8; 768]) -> Result<(), CallRefusal>
    ensures value { result ≡ call_refusal (length image.old) (length names.now) }
    ensures image_after { image.new ≡ mended_image image.old names.now }
    ensures report_after { report.new ≡ report_of image.old names.now }
{
    *report = [0u8; 768];
    judged(image.len(), names.len())?;
    mend_all(image, names, report);
    Ok(())
}
