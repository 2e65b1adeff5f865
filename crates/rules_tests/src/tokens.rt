// Single tokens, with their offsets.
use rules::reader::{Reader, Token};
use rules::refusal::{Fault, FaultKind};
use rules::signals::SignalList;

#[test]
fn a_name_takes_all_that_follows(rt: HostRuntime) {
    let mut reader = Reader::new(SignalList::lenient(b"p pq p1"), b" pq p1p\n");
    assert_eq!(rt; reader.next_token(), Ok(Some((1, Token::Name(b"pq", 1)))));
    assert_eq!(rt;
        reader.next_token(),
        Err(Fault {
            kind: FaultKind::Signal,
            offset: 4
        })
    );
}

#[test]
fn the_end_comes_again(rt: HostRuntime) {
    let mut reader = Reader::new(SignalList::lenient(b"p"), b"p  ");
    assert_eq!(rt; reader.next_token(), Ok(Some((0, Token::Name(b"p", 0)))));
    assert_eq!(rt; reader.next_token(), Ok(None));
    assert_eq!(rt; reader.next_token(), Ok(None));
}

#[test]
fn a_fault_comes_again(rt: HostRuntime) {
    let mut reader = Reader::new(SignalList::lenient(b"p"), b" $p");
    assert_eq!(rt;
        reader.next_token(),
        Err(Fault {
            kind: FaultKind::Letter,
            offset: 1
        })
    );
    assert_eq!(rt;
        reader.next_token(),
        Err(Fault {
            kind: FaultKind::Letter,
            offset: 1
        })
    );
}
