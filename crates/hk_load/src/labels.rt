//! The labels of a code (`docs/FORMATS.md`, "Loading").

ghost use Rattle.std.specs.Prelude.{◌≡◌, ◌++◌, ◌∷◌, [], false, length, map, IfOk, OnOk};
ghost use Rattle.hk_format.specs.Grammar.{is_among};
ghost use Rattle.hk_format.specs.Loading.{labels_from, target};
ghost use Rattle.hk_format.specs.Outcomes.{Gives};
ghost use Rattle.hk_load.specs.Jumping.{label_at, label_texts, HasNewLabels};

use crate::errors::LineError;
use crate::names::Declared;
use hk_format::{Body, LoadCause, Part};
use hk_model::Text;
use hk_model::limits::CODE_LIMIT;
use hk_script::Names;
use std::alloc::{AllocError, Global};
use std::marker::Model;

/// The labels of a code, each with the number of the instruction behind it. Contracts see the list.
#[derive(Drop)]
pub struct Labels {
    names: Names,
    /// Of each, the number of the instruction behind it.
    places: Vec<usize>,
}

impl Model for Labels {
    ghost use Rattle.std.specs.Prelude.{◌≡◌, List, length};
    ghost use Rattle.hk_format.specs.Loading.{Label};
    ghost use Rattle.hk_load.specs.Jumping.{labels_seen};

    ghost Value = { List Label };

    ghost view = { λ labels. labels_seen labels.names labels.places.items };

    ghost invariant = { λ labels. length labels.names ≡ length labels.places.items };
}

impl Labels {
    /// The labels of a code's lines, in the script that declares these names.
    pub fn of(alloc: Global, declared: &Declared, parts: &[Part]) -> Result<Labels, AllocError>
        requires { HasNewLabels [] parts.now }
        ensures { IfOk result (λ labels. labels ≡ labels_from 0 parts.now) }
    {
        let mut labels = Labels {
            names: declared.no_labels(alloc),
            places: Vec::new(alloc),
        };
        let mut place = 0;
        for part in parts {
            match &part.body {
                Body::LabelIs(label) => labels.add(alloc, label.as_str(), place)?,
                _ => place += 1,
            }
        }
        Ok(labels)
    }

    /// Puts a new label at the end.
    fn add(&mut self, alloc: Global, label: &str, place: usize) -> Result<(), AllocError>
        requires { is_among (label_texts self.old) label.now ≡ false }
        ensures { OnOk result (self.new ≡ self.old ++ label_at label.now place ∷ []) }
    {
        self.places.push(place)?;
        if let Err(error) = self.names.add(alloc, label) {
            self.places.pop();
            return Err(error);
        }
        Ok(())
    }

    /// Where a jump to this label goes. UnknownName where the code has no such label. A place above
    /// 4,096 is given as 4,096: a code with so many instructions is refused at the line of one of
    /// them.
    pub fn target(&self, label: &Text) -> Result<u16, LineError>
        ensures { Gives (λ x. x) result (target self.now label.now) }
    {
        match self.names.place(label.as_str()) {
            Some(number) => Ok(self.places[number].min(CODE_LIMIT) as u16),
            None => Err(LineError::Bad(LoadCause::UnknownName)),
        }
    }
}
