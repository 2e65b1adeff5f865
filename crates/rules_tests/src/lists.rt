// The list check and the look-up.
use rules::refusal::Refusal;
use rules::signals::SignalList;

#[test]
fn lawful_lists(rt: HostRuntime) {
    assert_eq!(rt; SignalList::check(b"p"), Ok(()));
    assert_eq!(rt; SignalList::check(b"p q1 abcdefgh"), Ok(()));
    assert_eq!(rt;
        SignalList::check(b"a b c d e f g h i j k l m n o p"),
        Ok(())
    );
}

#[test]
fn blanks_must_be_single(rt: HostRuntime) {
    assert_eq!(rt; SignalList::check(b""), Err(Refusal::List));
    assert_eq!(rt; SignalList::check(b" "), Err(Refusal::List));
    assert_eq!(rt; SignalList::check(b" p"), Err(Refusal::List));
    assert_eq!(rt; SignalList::check(b"p "), Err(Refusal::List));
    assert_eq!(rt; SignalList::check(b"p  q"), Err(Refusal::List));
    assert_eq!(rt; SignalList::check(b"p\nq"), Err(Refusal::List));
}

#[test]
fn names_must_be_names(rt: HostRuntime) {
    assert_eq!(rt; SignalList::check(b"abcdefghi"), Err(Refusal::List));
    assert_eq!(rt; SignalList::check(b"1p"), Err(Refusal::List));
    assert_eq!(rt; SignalList::check(b"p Q"), Err(Refusal::List));
    assert_eq!(rt; SignalList::check(b"p,q"), Err(Refusal::List));
    assert_eq!(rt; SignalList::check(b"p q p"), Err(Refusal::List));
    assert_eq!(rt;
        SignalList::check(b"a b c d e f g h i j k l m n o p q"),
        Err(Refusal::List)
    );
}

#[test]
fn names_have_their_numbers(rt: HostRuntime) {
    let list = SignalList::lenient(b"p q1 q");
    assert_eq!(rt; list.number_of(b"p"), Some(0));
    assert_eq!(rt; list.number_of(b"q1"), Some(1));
    assert_eq!(rt; list.number_of(b"q"), Some(2));
    assert_eq!(rt; list.number_of(b""), None);
    assert_eq!(rt; list.number_of(b"p q1"), None);
}

#[test]
fn an_unlawful_list_has_no_names(rt: HostRuntime) {
    let list = SignalList::lenient(b"p q p");
    assert_eq!(rt; list.number_of(b"p"), None);
    assert_eq!(rt; list.number_of(b"q"), None);
    assert_eq!(rt; list.number_of(b""), None);
}
