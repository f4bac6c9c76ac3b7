//! A list of texts.

use mx_outside::Names;
use std::test::Fail;

#[test]
fn keeps_names(rt: HostRuntime) -> Result<(), Fail> {
    let alloc = rt.alloc();
    let mut names = Names::new(alloc);
    assert!(rt; names.as_slice().is_empty());
    names.push("one".to_string(alloc)?)?;
    let mut names = Names::from_vec(names.into_vec());
    names.push("two".to_string(alloc)?)?;
    let [one, two] = names.as_slice() else {
        return Err(Fail::from("two names"));
    };
    assert_eq!(rt; one.as_str(), "one");
    assert_eq!(rt; two.as_str(), "two");
    Ok(())
}
