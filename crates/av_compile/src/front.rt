ghost use Rattle.std.specs.Prelude.{◌≡◌, ◌≢◌, ◌<◌, ◌⊎◌, length, IfOk, IfErr, Err};
ghost use Rattle.av_flat.specs.Trees.{FlatSystem, view_system};
ghost use Rattle.av_flat.specs.Proper.{IsProper};
ghost use Rattle.av_flat.specs.WellFormed.{IsWellFormed};
ghost use Rattle.av_names.specs.Texts.{AreSmall};
ghost use Rattle.av_compile.specs.Checked.{Flattens, HasNormalForm, IsChecked, IsRefused};
ghost use Rattle.av_compile.specs.declared.refusal.Refusal.{Refusal as Refused};
ghost use Rattle.av_compile.specs.declared.refusal.Refusal.TheVariants as refusal;

use crate::Refusal;
use av_base::Width;
use av_check::check_normal;
use av_flat::{Flat, Pass};
use av_lex::lex;
use av_names::{Size, resolve};
use av_normal::Normal;
use av_parse::parse;
use std::alloc::Global;

/// The flat system of what a text spells, with its sizes, in words of this width.
pub(crate) fn flattened(
    alloc: Global,
    bytes: &[u8],
    sizes: &[Size],
    width: Width,
) -> Result<Flat, Refusal>
    requires short { length bytes.now < 4294967295 }
    requires small { AreSmall sizes.now }
    ensures found { IfOk result (λ to. Flattens bytes.now sizes.now width.bits (view_system to)) }
    ensures well_formed { IfOk result (λ to. IsWellFormed (view_system to)) }
    ensures refused { (f : Refused) → result ≡ Err f
        → f ≢ refusal.Memory → IsRefused bytes.now sizes.now width.bits f }
    ensures complete { (s : FlatSystem)
        → Flattens bytes.now sizes.now width.bits s → IfErr result (λ f. f ≡ refusal.Memory) }
{
    let tokens = lex(alloc, bytes)?;
    let system = parse(alloc, tokens.as_slice())?;
    drop(tokens);
    Ok(resolve(alloc, &system, sizes, width)?)
}

/// The kept pieces of the system that a text spells, with its sizes, in words of this width, where its equations give each
/// declared point just one word.
///
/// Else it answers the first fault: of the bytes, of the grammar, of names and sizes, of pieces, sets and boxes, and last the
/// first variable's least point that has no word, or two.
pub fn checked(alloc: Global, bytes: &[u8], sizes: &[Size], width: Width) -> Result<Flat, Refusal>
    requires short { length bytes.now < 4294967295 }
    requires small { AreSmall sizes.now }

    // What is answered is the normal form of what the bytes spell, and that is proper. So are the equations of the text itself.
    ensures found { IfOk result (λ to. IsChecked bytes.now sizes.now width.bits (view_system to)) }

    // A text is refused for its first fault, unless memory runs out.
    ensures refused { (f : Refused) → result ≡ Err f
        → f ≢ refusal.Memory → IsRefused bytes.now sizes.now width.bits f }

    // Where a text has a first fault, it is refused for that one, unless memory runs out.
    ensures cause { (f : Refused) → IsRefused bytes.now sizes.now width.bits f
        → f ≢ refusal.Memory → (result ≡ Err f) ⊎ (result ≡ Err refusal.Memory) }

    // A proper system that has a normal form is not refused.
    ensures complete { (s : FlatSystem) → Flattens bytes.now sizes.now width.bits s
        → HasNormalForm s → IsProper s → IfErr result (λ f. f ≡ refusal.Memory) }
{
    let flat = flattened(alloc, bytes, sizes, width)?;
    let normal = Normal.run(alloc, &flat)?;
    check_normal(alloc, &flat, &normal)?;
    Ok(normal)
}
