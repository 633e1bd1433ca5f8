// The login server: a login, and the test of an account book.
ghost use Rattle.std.specs.Prelude.{◌≡◌};
ghost use Rattle.book.specs.Whole.{whole_book};
ghost use Rattle.server.specs.Login.{logged_in};
ghost use Rattle.lentserver.specs.Server.{Answers};

// A login: `message` came from the router at `source`; what is written goes back to it, so the number names no destination.
#[unsafe(no_mangle)]
pub extern "C" fn mis_server_login<'a>(
    mill: &'a [u8],
    visitors: &'a [u8],
    source: &[u8; 4],
    message: &[u8],
    out: &mut [u8],
) -> u32
    ensures { Answers (logged_in mill.now visitors.now source.now message.now out.old) result out.new }
{
    lentserver::login(mill, visitors, source, message, out)
}

// Whether an account book is whole: a server takes a changed book only then.
#[unsafe(no_mangle)]
pub extern "C" fn mis_book_whole(book: &[u8]) -> bool
    ensures { result ≡ whole_book book.now }
{
    book::whole::whole(book)
}
