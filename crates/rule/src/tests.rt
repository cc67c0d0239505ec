//! The edges of the grammar.
use super::{Refusal, Term, read};
use std::test::Fail;

// The place where a text is refused, or none where it is lawful.
fn place(text: &[u8]) -> Option<usize> {
    read(text).err().map(|refusal| refusal.at)
}

#[test]
fn places(rt: HostRuntime) {
    assert_eq!(rt; place(b""), Some(0));
    assert_eq!(rt; place(b"q():-A(a)"), Some(0));
    assert_eq!(rt; place(b"Q[):-A(a)"), Some(1));
    assert_eq!(rt; place(b"Q(a):-A(a)"), Some(2));
    assert_eq!(rt; place(b"Q()-:A(a)"), Some(3));
    assert_eq!(rt; place(b"Q(): -A(a)"), Some(4));
    assert_eq!(rt; place(b"Q():"), Some(4));
    assert_eq!(rt; place(b"Q():-a(a)"), Some(5));
    assert_eq!(rt; place(b"Q():-I(a)"), Some(5));
    assert_eq!(rt; place(b"Q():-Q(a)"), Some(5));
    assert_eq!(rt; place(b"Q():-Aa)"), Some(6));
    assert_eq!(rt; place(b"Q():-A()"), Some(7));
    assert_eq!(rt; place(b"Q():-A(,a)"), Some(7));
    assert_eq!(rt; place(b"Q():-A(B)"), Some(7));
    assert_eq!(rt; place(b"Q():-A(ab)"), Some(8));
    assert_eq!(rt; place(b"Q():-A(a1)"), Some(8));
    assert_eq!(rt; place(b"Q():-A(1 2)"), Some(9));
    assert_eq!(rt; place(b"Q():-A(a,)"), Some(9));
    assert_eq!(rt; place(b"Q():-A(a),"), Some(10));
    assert_eq!(rt; place(b"Q():-A(a),,B(a)"), Some(10));
    assert_eq!(rt; place(b"Q():-A(a)B(a)"), Some(9));
    assert_eq!(rt; place(b"Q():-A(a)."), Some(9));
    assert_eq!(rt; place(b"Q():-A(a)\n"), Some(9));
    assert_eq!(rt; place(b"Q():-A(a)\xff"), Some(9));
    assert_eq!(rt; place(b"Q():-A(\x80)"), Some(7));
}

#[test]
fn constants(rt: HostRuntime) {
    assert_eq!(rt; place(b"Q():-A(4294967295)"), None);
    assert_eq!(rt; place(b"Q():-A(4294967296)"), Some(16));
    assert_eq!(rt; place(b"Q():-A(9999999999)"), Some(16));
    assert_eq!(rt; place(b"Q():-A(0000000000)"), None);
    assert_eq!(rt; place(b"Q():-A(00000000000)"), Some(17));
    assert_eq!(rt; place(b"Q():-A(12345678901)"), Some(17));
    assert_eq!(rt; place(b"Q():-A( 1x)"), Some(9));
}

// A lawful text cut at any length can be continued, so it is refused at its length or is lawful.
#[test]
fn cuts(rt: HostRuntime) {
    let text = b" Q ( ) :- A ( a , 12 ) , H(z) ";
    assert_eq!(rt; text.len(), 30);
    for n in 0..31 {
        let lawful = n == 22 || n == 23 || n >= 29;
        assert_eq!(rt; place(&text[0..n]), if lawful { None } else { Some(n) });
    }
}

#[test]
fn atoms(rt: HostRuntime) -> Result<(), Fail> {
    let Ok(rule) = read(b"Q():-A(b,4294967295,007,z,c), H ( 0 )") else {
        return Err(Fail::new("lawful"));
    };
    let [first, second] = rule.atoms() else {
        return Err(Fail::new("two atoms"));
    };
    assert_eq!(rt; (first.table, first.count), (0, 5));
    assert_eq!(rt; first.terms[0], Term::Variable(1));
    assert_eq!(rt; first.terms[1], Term::Constant(4294967295));
    assert_eq!(rt; first.terms[2], Term::Constant(7));
    assert_eq!(rt; first.terms[3], Term::Variable(25));
    assert_eq!(rt; (second.table, second.count), (7, 1));
    assert_eq!(rt; second.terms[0], Term::Constant(0));
    assert_eq!(rt; second.terms[1], Term::Variable(0));
    Ok(())
}

// 101 atoms in 509 bytes, and spaces behind them.
fn longest() -> [u8; 513] {
    let mut text = [b' '; 513];
    let pieces = b"Q():-A(a),";
    for (i, byte) in text.iter_mut().take(509).enumerate() {
        *byte = pieces[if i < 5 { i } else { 5 + i % 5 }];
    }
    text
}

#[test]
fn lengths(rt: HostRuntime) -> Result<(), Fail> {
    let mut text = longest();
    assert_eq!(rt; place(&text), Some(512));
    let Ok(rule) = read(&text[0..512]) else {
        return Err(Fail::new("512 bytes"));
    };
    assert_eq!(rt; rule.atoms().len(), 101);
    text[0] = b'!';
    assert_eq!(rt; place(&text), Some(512));
    assert_eq!(rt; place(&text[0..512]), Some(0));
    Ok(())
}

#[test]
fn message(rt: HostRuntime) -> Result<(), Fail> {
    assert_eq!(rt;
        Refusal { at: 7 }.to_string(rt.alloc())?.as_str(),
        "refused at byte 7"
    );
    Ok(())
}
