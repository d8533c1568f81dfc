use super::*;
use std::test::Fail;

#[test]
fn what_is_put_in_is_shown(rt: HostRuntime) -> Result<(), Fail> {
    let name = Name::new(b"mk".to_vec(rt.alloc())?);
    assert_eq!(rt; name.bytes(), b"mk".as_slice());
    let text = Text::new(b"solve satisfy;\n".to_vec(rt.alloc())?);
    assert_eq!(rt; text.bytes().len(), 15);
    let assignment = Assignment::new([3, -1].to_vec(rt.alloc())?);
    assert_eq!(rt; assignment.values(), [3, -1].as_slice());
    assert_eq!(rt; name == Name::new(b"mk".to_vec(rt.alloc())?), true);
    assert_eq!(rt; name == Name::new(b"ml".to_vec(rt.alloc())?), false);
    Ok(())
}
