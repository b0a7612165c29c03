ghost use Rattle.std.specs.Prelude.{◌≡◌, length};

use super::*;
use terrain_base::grid_line;

// Whether the kept points after index 0 are the wanted ones, of which the last is 66.
fn keeps(line: &[i16], tol: u16, wanted: &[u8]) -> bool
    requires { length line.now ≡ 67 }
{
    let points = kept(line, tol);
    let mut at = 0;
    for next in wanted {
        if at >= 66 {
            return false;
        }
        at = points.after(at);
        if at != *next {
            return false;
        }
    }
    points.has(0) && at == 66
}

#[test]
fn edge_is_halved_towards_a_height_that_is_far_off(rt: HostRuntime) {
    let mut line = [0i16; 67];
    line[33] = 100;
    let wanted = [16, 24, 28, 30, 31, 32, 33, 34, 35, 37, 41, 49, 66];
    assert!(rt; keeps(&line, 16, &wanted));
    assert_eq!(rt; kept(&line, 16).count(), 14);
    assert!(rt; keeps(&line, 99, &[33, 66]));
    assert!(rt; keeps(&line, 100, &[66]));
}

#[test]
fn greatest_difference_of_heights_is_measured(rt: HostRuntime) {
    let mut line = [-32768i16; 67];
    line[7] = 32767;
    line[50] = 32767;
    assert!(rt; keeps(&line, 65534, &[4, 6, 7, 8, 16, 33, 49, 50, 51, 53, 57, 66]));
    assert!(rt; keeps(&line, 65535, &[66]));
}

#[test]
fn straight_is_meant_in_tile_units(rt: HostRuntime) {
    let mut by_units = [0i16; 67];
    let mut by_indexes = [0i16; 67];
    for i in 0..67u8 {
        by_units[i as usize] = grid_line(i) as i16;
        by_indexes[i as usize] = 496 * i as i16;
    }
    assert!(rt; keeps(&by_units, 0, &[66]));
    let points = kept(&by_indexes, 0);
    assert_eq!(rt; points.count(), 65);
    assert!(rt;
        !points.has(1) && points.has(2) && points.has(49) && !points.has(50) && !points.has(67)
    );
}
