// The writers of elements of any type, called with elements that are neither bytes nor numbers.
use super::{push, push_all};

#[test]
fn elements_of_any_type(rt: HostRuntime) {
    let mut out = [' '; 3];
    assert_eq!(rt; push(&mut out, 0, 'a'), 1);
    assert_eq!(rt; push_all(&mut out, 1, &['b', 'c']), 3);
    assert_eq!(rt; out, ['a', 'b', 'c']);
    assert_eq!(rt; push(&mut out, 3, 'd'), 4);
    assert_eq!(rt; push_all(&mut out, 2, &['e', 'f']), 4);
    assert_eq!(rt; out, ['a', 'b', 'e']);
    assert_eq!(rt; push_all(&mut out, 4, &[]), 4);
}
