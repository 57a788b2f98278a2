//! A technology of nMOS circuits.

/// Two planes, active (0) and metal (1). The types are poly (1), diff (2), efet (3), dfet (4), pc (5), dc (6), metal (7),
/// pc/metal (8) and dc/metal (9); the layers stand in the order of the lines of `types`, from 0.
pub const NM: &[u8] = b"\
tech\n nm\nend\n\
planes\n active\n metal\nend\n\
types\n active poly,p,red\n active diff,d,green\n active efet\n active dfet\n active pc\n active dc\n metal metal,m,blue\nend\n\
contact\n pc poly metal\n dc diff metal\nend\n\
compose\n compose efet poly diff\nend\n\
connect\n poly,pc/active,efet,dfet poly,pc/active,efet,dfet\n diff,dc/active diff,dc/active\n \
metal,pc/metal,dc/metal metal,pc/metal,dc/metal\nend\n\
extract\n resist poly,pc/active 30000\n resist diff,dc/active 10000\n resist metal,pc/metal,dc/metal 30\n \
cap poly,pc/active 400 100\n cap diff,dc/active 1000 200\n cap metal,pc/metal,dc/metal 300 100\n \
fet efet diff,dc efet GND!\n fet dfet diff,dc dfet GND!\nend\n";
