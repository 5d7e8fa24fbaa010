//! What lines spell that are read as items (`docs/FORMATS.md`, "Grammar").

ghost use Rattle.std.specs.Prelude.{◌≡◌, ◌↔◌, map, Ok};
ghost use Rattle.hk_format.specs.Texts.{text};
ghost use Rattle.hk_format.specs.Grammar.{script};
ghost use Rattle.hk_format.specs.Syntax.{IsSyntax};
ghost use Rattle.hk_format.specs.ItemLines.{AreLinesOf};
ghost use Rattle.hk_text.specs.Views.{line_seen};

use hk_format::Item;
use hk_text::TextLine;

/// The lines of a text are read as these items exactly where the lines spell them, and what the items
/// say is in form and in range with no name and no label of a code given twice. So lines are read as
/// at most one list of items, and other lines than those that spell it are not. The function does
/// nothing; its contract is the law.
pub fn lines_spell_their_items(source: &[u8], lines: &[TextLine], items: &[Item])
    requires { text source.now ≡ Ok (map (line_seen source.now) lines.now) }
    ensures { (script (map (line_seen source.now) lines.now) ≡ Ok items.now) ↔ (IsSyntax items.now × AreLinesOf (map (line_seen source.now) lines.now) items.now) }
{
    let _bytes = source.len();
    let _lines = lines.len();
    let _items = items.len();
}
