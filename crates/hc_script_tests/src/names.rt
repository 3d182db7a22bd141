use hc_names::{NameFault, Names, laws};
use std::test::Fail;

#[test]
fn texts_are_numbered_as_they_come(rt: HostRuntime) -> Result<(), Fail> {
    let mut names = Names::new(rt.alloc());
    assert!(rt; names.is_empty());
    let cases = [
        ("a", 0),
        ("b", 1),
        ("a", 0),
        ("", 2),
        ("ab", 3),
        ("b", 1),
        ("", 2),
        ("a ", 4),
        ("é", 5),
        ("A", 6),
        ("a", 0),
    ];
    for (text, number) in cases {
        assert_eq!(rt; names.intern(text)?, number, "{text}");
        assert_eq!(rt; names.text(number), Some(text));
    }
    assert_eq!(rt; names.len(), 7);
    assert_eq!(rt; names.text(7), None);
    assert!(rt; !names.is_full());
    Ok(())
}

#[test]
fn a_new_text_is_refused_once_all_numbers_are_given(rt: HostRuntime) -> Result<(), Fail> {
    let mut names = Names::new(rt.alloc());
    for n in 0..1_048_576u32 {
        let text = format!(in rt.alloc(); "name {n}")?;
        assert_eq!(rt; names.intern(&text), Ok(n));
    }
    assert!(rt; names.is_full());
    assert_eq!(rt; names.intern("one more"), Err(NameFault::Full));
    assert_eq!(rt; names.intern("name 0"), Ok(0));
    assert_eq!(rt; names.intern("name 1048575"), Ok(1_048_575));
    assert_eq!(rt; names.text(1_048_575), Some("name 1048575"));
    assert_eq!(rt; names.text(1_048_576), None);
    assert_eq!(rt; names.len(), 1_048_576);
    Ok(())
}

#[test]
fn the_laws_cost_nothing() {
    laws::present_text_is_named();
    laws::named_text_is_present();
    laws::interning_keeps_names();
}
