ghost use Rattle.std.specs.Prelude.{◌≡◌, ◌%◌, ◌^◌, sum};
ghost use Rattle.weighing.specs.Efforts.{least_of};

use crate::*;

/// The total of counts is the sum of the raw weights, which wraps.
fn counted(raws: &[u32]) -> Counting
    ensures { result.0 ≡ sum raws.now % 2 ^ 64 }
{
    total(raws)
}

/// The total of efforts is the least that a raw weight stands for.
fn least(raws: &[u32]) -> Effort
    ensures { result ≡ least_of raws.now }
{
    total(raws)
}

#[test]
fn counts_wrap(rt: HostRuntime) {
    let top = Counting(18_446_744_073_709_551_615);
    assert_eq!(rt; top.join(Counting(3)), Counting(2));
    assert_eq!(rt; Counting(1 << 63).combine(Counting(3)), Counting(1 << 63));
    assert_eq!(rt; top.combine(top), Counting::one());
}

#[test]
fn never_is_larger_than_any_minutes(rt: HostRuntime) {
    assert_eq!(rt; Effort::Minutes(3).join(Effort::Never), Effort::Minutes(3));
    assert_eq!(rt; Effort::Never.join(Effort::Never), Effort::Never);
    assert_eq!(rt;
        Effort::Never.join(Effort::Minutes(4_294_967_295)),
        Effort::Minutes(4_294_967_295)
    );
}

#[test]
fn efforts_past_the_top_are_never(rt: HostRuntime) {
    let top = Effort::Minutes(4_294_967_295);
    assert_eq!(rt; top.combine(Effort::Minutes(0)), top);
    assert_eq!(rt; top.combine(Effort::Minutes(1)), Effort::Never);
    assert_eq!(rt; Effort::Never.combine(Effort::one()), Effort::Never);
    assert_eq!(rt; Effort::read(4_294_967_295), Effort::Never);
    assert_eq!(rt; Effort::read(4_294_967_294), Effort::Minutes(4_294_967_294));
}

#[test]
fn totals_join_what_is_read(rt: HostRuntime) {
    let raws = [7, 4_294_967_295, 5];
    assert_eq!(rt; counted(&raws), Counting(4_294_967_307));
    assert_eq!(rt; least(&raws), Effort::Minutes(5));
    assert_eq!(rt; least(&[]), Effort::Never);
}
