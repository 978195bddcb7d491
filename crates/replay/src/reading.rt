// Does reading a sheet do what a record tells? Told: CODE PLACE RULES END, and where each rule begins. Sheets are read in form 1 or 2; a form that
// is neither is refused before that, and no reading is stored in one.
use crate::record::number;
use forms::Form;
use sheet::check::check;

// Do the rules begin where the record says?
fn begin_so(begins: &[usize; 256], rules: usize, places: &[u8]) -> bool {
    if 256 < rules || places.len() != 3 * rules {
        return false;
    }
    for i in 0..rules {
        if begins[i] != number(places, 3 * i) {
            return false;
        }
    }
    true
}

fn read_so(form: Form, sheet: &[u8], told: &[u8]) -> bool {
    if told.len() < 12 {
        return false;
    }
    let mut begins = [0usize; 256];
    match check(form, sheet, &mut begins) {
        Ok(rules) => {
            number(told, 0) == 0
                && number(told, 3) == 0
                && number(told, 6) == rules.count
                && number(told, 9) == rules.end
                && begin_so(&begins, rules.count, &told[12..])
        }
        Err(refusal) => {
            number(told, 0) == usize::from(refusal.reason.code())
                && number(told, 3) == refusal.place
                && number(told, 6) == 0
                && number(told, 9) == 0
        }
    }
}

pub fn agrees(form: u64, sheet: &[u8], told: &[u8]) -> bool {
    match form {
        1 => read_so(Form::One, sheet, told),
        2 => read_so(Form::Two, sheet, told),
        _ => false,
    }
}
