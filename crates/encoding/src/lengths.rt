// Tests that lists of bytes are cut between entries. A relation record takes six bytes, a value four, a live word
// eight, any other entry two.
ghost use Rattle.std.specs.Prelude.{◌≡◌};
ghost use Rattle.encoding.specs.Whole.{whole_cells, whole_network, whole_instance, whole_change};

// Tests a list of variables and a list of values, by their lengths in bytes.
pub fn cells_whole(questions: usize, codes: usize) -> bool
    ensures { result ≡ whole_cells questions codes }
{
    questions % 2 == 0 && codes % 4 == 0
}

// Tests the three lists of a network.
pub fn network_whole(sheets: usize, questions: usize, codes: usize) -> bool
    ensures { result ≡ whole_network sheets questions codes }
{
    sheets % 6 == 0 && cells_whole(questions, codes)
}

// Tests the lists of a network and the list of its combinations.
pub fn instance_whole(sheets: usize, questions: usize, codes: usize, combinations: usize) -> bool
    ensures { result ≡ whole_instance sheets questions codes combinations }
{
    network_whole(sheets, questions, codes) && combinations % 2 == 0
}

// Tests every list of a change call but the change's own.
pub fn change_whole(
    sheets: usize,
    questions: usize,
    codes: usize,
    combinations: usize,
    marks: usize,
    supports: usize,
) -> bool
    ensures { result ≡ whole_change sheets questions codes combinations marks supports }
{
    instance_whole(sheets, questions, codes, combinations) && marks % 8 == 0 && supports % 2 == 0
}
