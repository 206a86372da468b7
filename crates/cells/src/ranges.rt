// The range of a path loss.
ghost use Rattle.std.specs.Prelude.{◌≡◌};
ghost use Rattle.refusals.specs.First.{first_that_holds, refused_or};
ghost use Rattle.cells.specs.Ranges.{loss_conditions};

use refusals::Refusal;

/// A path loss of 0 to 200 dB. Any other is refused.
// No `TryFrom`: a loss is a plain `u8`, and `u8::try_from` takes up to 255.
pub fn checked_loss(raw: u32) -> Result<u8, Refusal>
    ensures { result ≡ refused_or (first_that_holds (loss_conditions raw)) raw }
{
    if raw > 200 {
        return Err(Refusal::OutOfRange);
    }
    // At most 200: tested above.
    Ok(raw as u8)
}
