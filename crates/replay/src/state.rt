// Does the lookup in a sheet of a form answer what a record tells? Told: YEAR MONTH DAY MINUTE in eight bytes each, CODE KIND COMMENT PLACE.
use crate::record::{long_number, number};

pub fn agrees(form: u64, sheet: &[u8], told: &[u8]) -> bool {
    if told.len() < 44 {
        return false;
    }
    let looked = hours::lookup(
        form,
        sheet,
        long_number(told, 0),
        long_number(told, 8),
        long_number(told, 16),
        long_number(told, 24),
    );
    number(told, 32) as u64 == looked.code
        && number(told, 35) as u64 == looked.kind
        && number(told, 38) as u64 == looked.comment
        && number(told, 41) as u64 == looked.place
}
