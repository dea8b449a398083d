// What the readers answer, where it is not the last record made.
use characters::place::Place;

// A list, read up to `at`: its last item or 0, and how many items there are.
#[derive(Clone, Copy)]
pub struct Items {
    pub at: Place,
    pub last: u32,
    pub count: u32,
}

// A part that may be left out, read up to `at`: its record, or 0.
#[derive(Clone, Copy)]
pub struct Part {
    pub at: Place,
    pub number: u32,
}
