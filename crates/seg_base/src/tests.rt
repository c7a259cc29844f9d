use super::*;
use std::test::Fail;

// The ends of the classes, and of a store's places, as the rules state them.
#[test]
fn classes_and_places(rt: HostRuntime) -> Result<(), Fail> {
    assert_eq!(rt; class_of(1008, 25), Class::Fs2);
    assert_eq!(rt; class_of(1007, 25), Class::Full);
    assert_eq!(rt; class_of(4032, 0), Class::Fs4);
    assert_eq!(rt; class_from(class_code(Class::Fs3)), Some(Class::Fs3));
    let shape = Shape {
        blocks: 64,
        extent: 8,
        undo: 2,
    };
    assert!(rt; shape.is_within_limits());
    for (extent, index, nth, place) in [
        (0, 0, 0, Some(Dba(43))),
        (1, 1, 6, Some(Dba(54))),
        (1, 1, 7, None),
        (3, 2, 0, None),
    ] {
        assert_eq!(rt; place_of(&shape, extent, index, nth), place);
    }
    Ok(())
}

// Numbers are written with the highest byte first, and read from where they were written.
#[test]
fn fields_are_put_and_got(rt: HostRuntime) -> Result<(), Fail> {
    let mut bytes = Vec::new(rt.alloc());
    put_u16(&mut bytes, 0x0102)?;
    put_u32(&mut bytes, 0x0304_0506)?;
    put_u64(&mut bytes, 0x0708_090a_0b0c_0d0e)?;
    let expected = [1u8, 2, 3, 4, 5, 6, 7, 8, 9, 10, 11, 12, 13, 14];
    assert_eq!(rt; bytes.as_slice(), expected.as_slice());
    assert_eq!(rt; get_u16(&bytes, 0), Some(0x0102));
    assert_eq!(rt; get_u32(&bytes, 2), Some(0x0304_0506));
    assert_eq!(rt; get_u64(&bytes, 6), Some(0x0708_090a_0b0c_0d0e));
    Ok(())
}

// Lists, texts and names, each once at a type of its own.
#[test]
fn lists_and_names_are_made(rt: HostRuntime) -> Result<(), Fail> {
    let alloc = rt.alloc();
    let mut numbers = Newest::new(alloc);
    numbers.push(1)?;
    assert_eq!(rt; numbers.as_slice(), [1].as_slice());
    let mut same = Sequence::new(alloc);
    same.push(7)?;
    assert_eq!(rt; Sequence::from_vec(same.into_vec()).len(), 1);
    assert_eq!(rt; Text::copy(alloc, b"ab")?.duplicate(alloc)?.len(), 2);
    for (text, is) in [("t_1", true), ("_t", false)] {
        assert_eq!(rt; Name::copy(alloc, text.as_bytes())?.is_some(), is);
    }
    Ok(())
}
