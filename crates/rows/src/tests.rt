ghost use Rattle.std.specs.Prelude.{◌≡◌, Decides, ◌&&◌, ◌||◌, length, ◌==◌, nat_le, nat_lt, slice_index};
ghost use Rattle.std.proofs.Common.{arith};
ghost use Rattle.std.proofs.lemmas.Bool.Decides.{nat_tests};
ghost use Rattle.rows.specs.WordOrderedLemmas.{word_same};

use crate::*;

/// A word of up to two letters. The letters past `len` are 0 in a valid one.
#[derive(Clone, Copy, PartialEq, Debug)]
struct Word {
    len: u8,
    letters: [u8; 2],
}

/// A word is at or below those that begin with it, and comes first by its letters, then by its length.
impl Ordered for Word {
    ghost valid = { λ w. (length w.letters == 2) && ((nat_le 1 w.len || slice_index w.letters 0 == 0) && (nat_le 2 w.len || slice_index w.letters 1 == 0)) };

    ghost below = { λ v w. nat_le v.len w.len && ((nat_lt v.len 1 || slice_index v.letters 0 == slice_index w.letters 0) && (nat_lt v.len 2 || slice_index v.letters 1 == slice_index w.letters 1)) };

    ghost before = { λ v w. nat_lt (slice_index v.letters 0) (slice_index w.letters 0) || (slice_index v.letters 0 == slice_index w.letters 0 && (nat_lt (slice_index v.letters 1) (slice_index w.letters 1) || (slice_index v.letters 1 == slice_index w.letters 1 && nat_lt v.len w.len))) };

    ghost orders = { record {
      itself = λ x _. Prim.grind (arith, nat_tests);
      through = λ x y z _ _ _ p q. Prim.grind (arith, nat_tests);
      same = λ x y u v p q. word_same (λ n ls. record { len = n; letters = ls }) x.len y.len x.letters y.letters (Prim.grind (arith, nat_tests)) (Prim.grind (arith, nat_tests)) (Prim.grind (arith, nat_tests)) (Prim.grind (arith, nat_tests)) (Prim.grind (arith, nat_tests));
      apart = λ x _. Prim.grind (arith, nat_tests);
      onward = λ x y z _ _ _ p q. Prim.grind (arith, nat_tests);
      total = λ x y u v p q. word_same (λ n ls. record { len = n; letters = ls }) x.len y.len x.letters y.letters (Prim.grind (arith, nat_tests)) (Prim.grind (arith, nat_tests)) (Prim.grind (arith, nat_tests)) (Prim.grind (arith, nat_tests)) (Prim.grind (arith, nat_tests));
    } };

    fn at_or_below(&self, other: &Word) -> bool {
        self.len <= other.len
            && (self.len < 1 || self.letters[0] == other.letters[0])
            && (self.len < 2 || self.letters[1] == other.letters[1])
    }

    fn precedes(&self, other: &Word) -> bool {
        (self.letters, self.len) < (other.letters, other.len)
    }
}

/// `==` tells whether two rows are the same.
fn same(a: &Row, b: &Row) -> bool
    ensures { Decides result (a.now ≡ b.now) }
{
    a == b
}

fn row(first: u8, second: u8) -> Row {
    Row::empty().with(0, first).with(1, second)
}

#[test]
fn rows_are_compared(rt: HostRuntime) {
    let (a, b) = (row(1, 0), row(0, 2));
    assert!(rt; row(1, 2).contains(&a) && !a.contains(&row(1, 2)));
    assert!(rt; a.compatible(&b) && !a.compatible(&row(2, 2)));
    assert_eq!(rt; a.union(&b), row(1, 2));
    assert!(rt; b.precedes(&a) && !a.precedes(&a));
    assert_eq!(rt; a.with(16, 3), a);
    assert!(rt; same(&a, &a) && !same(&a, &b));
}

#[test]
fn one_goes_in_for_two(rt: HostRuntime) {
    let mut items = [row(1, 1), row(1, 2), row(2, 0)];
    assert!(rt; put(&mut items, 3, row(1, 0)) == Ok(2));
    assert_eq!(rt; items[0], row(1, 0));
    assert_eq!(rt; items[1], row(2, 0));
}

#[test]
fn a_third_is_refused(rt: HostRuntime) {
    let mut items = [row(1, 0), row(2, 0)];
    assert!(rt; put(&mut items, 2, row(0, 1)) == Err(Full));
    assert!(rt; put(&mut items, 2, row(1, 3)) == Ok(2));
    assert_eq!(rt; items[0], row(1, 0));
    assert_eq!(rt; items[1], row(2, 0));
}

#[test]
fn minimal_rows_are_kept(rt: HostRuntime) {
    let from = [row(2, 1), row(0, 1), row(1, 0), row(1, 2), row(0, 1)];
    let mut into = [Row::empty(); 3];
    assert!(rt; minimal_rows(&from, &mut into) == Ok(2));
    assert_eq!(rt; into[0], row(0, 1));
    assert_eq!(rt; into[1], row(1, 0));
}

#[test]
fn shortest_words_are_kept(rt: HostRuntime) {
    let ab = Word {
        len: 2,
        letters: [1, 2],
    };
    let a = Word {
        len: 1,
        letters: [1, 0],
    };
    let ba = Word {
        len: 2,
        letters: [2, 1],
    };
    let mut into = [ab; 2];
    assert!(rt; put_all(&[ba, ab, a], &mut into) == Ok(2));
    assert!(rt; into[0] == a && into[1] == ba);
}

#[test]
fn a_lent_list_takes_what_fits(rt: HostRuntime) {
    let mut places = [9; 4];
    let mut list = Lent::new(&mut places);
    assert!(rt; list.push(1) == Ok(()));
    assert!(rt; list.extend_from_slice(&[2, 3]) == Ok(()));
    assert!(rt; list.extend_from_slice(&[4, 5]) == Err(Full));
    assert_eq!(rt; list.as_slice(), [1, 2, 3].as_slice());
    assert!(rt; list.len() == 3);
    assert!(rt; places == [1, 2, 3, 9]);
}
