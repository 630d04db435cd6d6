use rows::classes::Class;
use rows::packed::{pack, stray_bit, unpack};
use rows::points::{bad_mark, padded};
use rows::prices::{
    ones, ones_below, planes, price, price_at_plane, remainders, row_at_plane, weight,
};

#[test]
fn five_and_minus_three(rt: HostRuntime) {
    let prices = [5, -3];
    assert_eq!(rt; weight(&prices), 8);
    assert_eq!(rt; ones(&prices), 4);
    assert_eq!(rt; planes(&prices), 3);
    assert_eq!(rt; price(&prices, &[1, 1]), 2);
    assert_eq!(rt; price(&prices, &[0, 1]), -3);
    assert_eq!(rt; remainders(&prices, 1), 2);
    assert_eq!(rt; ones_below(&prices, 2), 3);
}

#[test]
fn rows_at_planes(rt: HostRuntime) {
    let row = padded(&[5, -3], 0);
    let two = row_at_plane(&row, 2);
    let one = row_at_plane(&row, 1);
    let zero = row_at_plane(&row, 0);
    assert_eq!(rt; &two[..2], [1, 0].as_slice());
    assert_eq!(rt; &one[..2], [2, -1].as_slice());
    assert_eq!(rt; &zero[..3], [5, -3, 0].as_slice());
}

/// The magnitude of the least price does not fit a signed number of 64 bits.
#[test]
fn least_price(rt: HostRuntime) {
    let least = -9_223_372_036_854_775_808;
    assert_eq!(rt; weight(&[least]), 9_223_372_036_854_775_808);
    assert_eq!(rt; ones(&[least]), 1);
    assert_eq!(rt; planes(&[least]), 64);
    assert_eq!(rt; price_at_plane(least, 0), least);
    assert_eq!(rt; price_at_plane(least, 63), -1);
    assert_eq!(rt; price_at_plane(least, 64), 0);
}

/// A shift would keep −1 at −1 in every plane.
#[test]
fn minus_one_has_one_plane(rt: HostRuntime) {
    assert_eq!(rt; price_at_plane(-1, 0), -1);
    assert_eq!(rt; price_at_plane(-1, 1), 0);
    assert_eq!(rt; planes(&[-1]), 1);
    assert_eq!(rt; planes(&[0, 0]), 0);
    assert_eq!(rt; planes(&[]), 0);
}

#[test]
fn packing(rt: HostRuntime) {
    let marks = [1, 0, 0, 0, 0, 0, 0, 1, 0, 1];
    let bytes = pack(&marks);
    assert_eq!(rt; &bytes[..3], [129, 2, 0].as_slice());
    let mut row = [7u8; 10];
    unpack(&bytes, &mut row);
    assert_eq!(rt; row, marks);
    assert_eq!(rt; stray_bit(&bytes, 10), None);
    assert_eq!(rt; stray_bit(&bytes, 8), Some(9));
    assert_eq!(rt; stray_bit(&bytes, 1), Some(7));
}

#[test]
fn marks(rt: HostRuntime) {
    assert_eq!(rt; bad_mark(&[0, 1, 2, 1, 3]), Some(2));
    assert_eq!(rt; bad_mark(&[0, 1]), None);
}

#[test]
fn classes(rt: HostRuntime) {
    assert_eq!(rt; Class::DoorEvents.price(3), 7665);
    assert_eq!(rt; Class::KeypadErrors.price(12), 1080);
    assert_eq!(rt; Class::Heartbeats.price(40), 280);
    assert_eq!(rt; Class::DoorEvents.price(4_294_967_295), 10_973_641_438_725);
}
