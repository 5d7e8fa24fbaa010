//! Records of scripts are short (`docs/RULES.md`, "Limits").

ghost use Rattle.std.specs.Prelude.{◌≡◌, ◌≤◌, Ok, length};
ghost use Rattle.hk_model.specs.Limits.{script_bytes, record_bytes};
ghost use Rattle.hk_model.specs.Running.{AreStepsOf};
ghost use Rattle.hk_format.specs.Worlds.{world};
ghost use Rattle.hk_format.specs.Records.{record_text};

use hk_model::{End, Line, World};

/// A record of steps of a world is no longer than a record may be, where some script that is no longer
/// than a script may be spells this world. The function does nothing; its contract is the law.
pub fn record_of_script_fits(source: &[u8], loaded: &World, lines: &[Line], end: End)
    requires script { world source.now ≡ Ok loaded.now }
    requires short { length source.now ≤ script_bytes }
    requires steps { AreStepsOf loaded.now lines.now }
    ensures { length (record_text loaded.now lines.now end) ≤ record_bytes }
{
    let _bytes = source.len();
    let _limit = loaded.limit();
    let _count = lines.len();
    let _end = end;
}
