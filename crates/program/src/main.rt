// The program: a listing of at most 65,536 bytes from standard input, its verdict as lines on standard output.
// Relies on the check, on the page's lines and on the kit's reading and writing.
#![tactic(auto)]

ghost use Rattle.program_page.specs.Pages.{ShowsPage};

// Standard input and output, as every process has them.
const STDIN_FILENO: i32 = 0;

const STDOUT_FILENO: i32 = 1;

// What is printed for a listing, at the front of lent room: how many bytes.
fn print(listing: &[u8], out: &mut [u8; 256]) -> usize
    ensures { ShowsPage listing.now result out.new }
{
    if 65536 < listing.len() {
        return program_page::put_too_long(out);
    }
    program_page::put_page(ask_check::check(listing), out)
}

// One byte more than a listing may have is asked for, to see that there are more. There is no heap, so the room is fixed.
fn main() {
    let mut listing = [0u8; 65537];
    let n = io::read_full(STDIN_FILENO, &mut listing);
    let mut page = [0u8; 256];
    let size = print(&listing[..n], &mut page);
    io::write_all(STDOUT_FILENO, &page[..size]);
}
