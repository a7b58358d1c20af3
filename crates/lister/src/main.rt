// Prints the deck on standard input: a line for each word, or how it is refused.
#![tactic(auto)]

use std::io::Print;

// The deck's room is one byte longer than any deck: longer input fills it, and is refused by 15.
// The text's room is 19 bytes for each of 4,096 words, which holds the text of every deck. The program
// ends with 0 all the same: the root command gives 1 where anything stands on standard error.
fn main(rt: HostRuntime) {
    let mut deck = [0u8; 34305];
    let Ok(length) = input::read(&mut rt.stdin(), &mut deck) else {
        let _ = eprintln!(rt; "lister: the input was not read");
        return;
    };
    let mut text = [0u8; 77824];
    let Ok(size) = listing::print(&deck[..length], &mut text) else {
        return;
    };
    if rt.write_all(&text[..size]).is_err() {
        let _ = eprintln!(rt; "lister: the text was not written");
    }
    // a line of a word begins with a digit, and a refusal with its name
    if text[0] == b'R' {
        let _ = eprintln!(rt;
            "lister: the deck is refused; docs/NUMBERS.md has the numbers in words"
        );
    }
}
