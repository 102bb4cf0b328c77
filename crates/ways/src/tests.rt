use crate::any_way;

#[test]
fn one_weight_is_enough(rt: HostRuntime) {
    assert!(rt; any_way(&[0, 1]) && any_way(&[7, 0]));
    assert!(rt; !any_way(&[0, 0]) && !any_way(&[]));
}
