// Readings at halves, at the limits and beyond.
use crate::list::{Reading, ReadingRefusal, read_all};
use crate::number::read;
use effects::section::Section;

#[test]
fn numbers(rt: HostRuntime) {
    let cases = [
        (2.5, Some(3)),
        (-2.5, Some(-3)),
        (3.5, Some(4)),
        (0.5, Some(1)),
        (0.49999999999999994, Some(0)),
        (-0.0, Some(0)),
        (5e-324, Some(0)),
        (4503599.75, Some(4503600)),
        (999_999_999.5, Some(1_000_000_000)),
        (1_000_000_000.0, Some(1_000_000_000)),
        (-1_000_000_000.0, Some(-1_000_000_000)),
        (1_000_000_000.25, None),
        (-1_000_000_000.25, None),
        (f64::INFINITY, None),
        (f64::NEG_INFINITY, None),
        (f64::NAN, None),
    ];
    for (x, whole) in cases {
        assert_eq!(rt; read(x), whole);
    }
}

#[test]
fn lists(rt: HostRuntime) {
    let good = Reading {
        axial: 2.5,
        moment: -2.5,
        shear: 0.25,
    };
    let bad = Reading {
        axial: 1.0,
        moment: 1_000_000_000.25,
        shear: 0.0,
    };
    let zero = Section {
        axial: 0,
        moment: 0,
        shear: 0,
    };
    let mut places = [zero; 2];
    assert_eq!(rt;
        read_all(&[good], &mut places),
        Err(ReadingRefusal::PlacesDiffer)
    );
    assert_eq!(rt;
        read_all(&[good, bad], &mut places),
        Err(ReadingRefusal::OutOfRange(1))
    );
    assert_eq!(rt; places[0], zero);
    assert_eq!(rt; read_all(&[good, good], &mut places), Ok(()));
    assert_eq!(rt;
        places[1],
        Section {
            axial: 3,
            moment: -3,
            shear: 0,
        }
    );
}
