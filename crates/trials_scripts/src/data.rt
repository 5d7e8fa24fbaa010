// The plain data: texts and worlds, made and copied.

use hk_model::{Born, Items, Kind, Text, World};
use std::alloc::Global;
use std::test::Fail;

#[test]
fn texts_are_copied_whether_short_or_long(rt: HostRuntime) -> Result<(), Fail> {
    let alloc = rt.alloc();
    for letters in ["", "cell", "fourteen_bytes", "fifteen_letters"] {
        let text = Text::from_str(alloc, letters)?;
        assert_eq!(rt; text.as_str(), letters);
        assert_eq!(rt; text.as_bytes(), letters.as_bytes());
        assert_eq!(rt; text.copy(alloc)?.as_str(), letters);
    }
    for letters in ["cell", "a_long_text_of_a_string"] {
        let text = Text::from_string(String::from_str(alloc, letters)?)?;
        assert_eq!(rt; text.copy(alloc)?.as_bytes(), letters.as_bytes());
    }
    Ok(())
}

/// A world of one type.
fn world(alloc: Global) -> Result<World, Fail> {
    let born = Born {
        label: Text::from_str(alloc, "t")?,
        kind: Kind::TypeObject,
    };
    let objects = Items::from_vec(vec![in alloc; born]?);
    Ok(World::new(100, objects, Items::new(alloc), Items::new(alloc)))
}

#[test]
fn worlds_are_copied(rt: HostRuntime) -> Result<(), Fail> {
    let copy = world(rt.alloc())?.copy(rt.alloc()).ok().ok_or("a copy")?;
    assert_eq!(rt; copy.limit(), 100);
    assert_eq!(rt; copy.objects().len(), 1);
    assert_eq!(rt; copy.codes().len(), 0);
    assert_eq!(rt; copy.tasks().len(), 0);
    Ok(())
}
