//! Responses that are the same each time. None wants memory.
ghost use Rattle.std.specs.Prelude.{◌≡◌};
ghost use Rattle.desk_replies.specs.Responses.{fixed_response};
ghost use Rattle.desk_replies.specs.declared.fixed.Fixed.TheVariants as fixed;

/// What a response without any value in it says.
#[derive(Clone, Copy, Debug, PartialEq, Eq)]
pub enum Fixed {
    /// A page of another address asks: 403.
    BadOrigin,
    /// The head, a field, or the body is not as it has to be: 400.
    BadRequest,
    /// The path has no route: 404.
    NoSuchPath,
    /// The package is not live: 404.
    NoSuchPackage,
    /// No receipt is kept: 404.
    NoSuchReceipt,
    /// The route has another method: 405.
    BadMethod,
    /// There is no Content-Length: 411.
    NoLength,
    /// The Content-Length is over the limit: 413.
    TooLarge,
    /// A store failed: 500.
    StoreFault,
    /// Memory was wanting, and nothing has changed: 507.
    OutOfMemory,
    /// A receipt stands, and memory was wanting for its text: 507.
    AskAgain,
}

fn bad_request() -> &'static [u8]
    ensures { result.now ≡ fixed_response fixed.BadRequest }
{
    b"HTTP/1.1 400 Bad Request\r\ncontent-type: application/json\r\ncontent-length: 23\r\nconnection: close\r\n\r\n{\"fault\":\"bad request\"}"
}

fn bad_origin() -> &'static [u8]
    ensures { result.now ≡ fixed_response fixed.BadOrigin }
{
    b"HTTP/1.1 403 Forbidden\r\ncontent-type: application/json\r\ncontent-length: 22\r\nconnection: close\r\n\r\n{\"fault\":\"bad origin\"}"
}

fn no_such_path() -> &'static [u8]
    ensures { result.now ≡ fixed_response fixed.NoSuchPath }
{
    b"HTTP/1.1 404 Not Found\r\ncontent-type: application/json\r\ncontent-length: 24\r\nconnection: close\r\n\r\n{\"fault\":\"no such path\"}"
}

fn no_such_package() -> &'static [u8]
    ensures { result.now ≡ fixed_response fixed.NoSuchPackage }
{
    b"HTTP/1.1 404 Not Found\r\ncontent-type: application/json\r\ncontent-length: 27\r\nconnection: close\r\n\r\n{\"fault\":\"no such package\"}"
}

fn no_such_receipt() -> &'static [u8]
    ensures { result.now ≡ fixed_response fixed.NoSuchReceipt }
{
    b"HTTP/1.1 404 Not Found\r\ncontent-type: application/json\r\ncontent-length: 27\r\nconnection: close\r\n\r\n{\"fault\":\"no such receipt\"}"
}

fn bad_method() -> &'static [u8]
    ensures { result.now ≡ fixed_response fixed.BadMethod }
{
    b"HTTP/1.1 405 Method Not Allowed\r\ncontent-type: application/json\r\ncontent-length: 22\r\nconnection: close\r\n\r\n{\"fault\":\"bad method\"}"
}

fn no_length() -> &'static [u8]
    ensures { result.now ≡ fixed_response fixed.NoLength }
{
    b"HTTP/1.1 411 Length Required\r\ncontent-type: application/json\r\ncontent-length: 21\r\nconnection: close\r\n\r\n{\"fault\":\"no length\"}"
}

fn too_large() -> &'static [u8]
    ensures { result.now ≡ fixed_response fixed.TooLarge }
{
    b"HTTP/1.1 413 Payload Too Large\r\ncontent-type: application/json\r\ncontent-length: 21\r\nconnection: close\r\n\r\n{\"fault\":\"too large\"}"
}

fn store_fault() -> &'static [u8]
    ensures { result.now ≡ fixed_response fixed.StoreFault }
{
    b"HTTP/1.1 500 Internal Server Error\r\ncontent-type: application/json\r\ncontent-length: 34\r\nconnection: close\r\n\r\n{\"name\":\"StoreFault\",\"refusal\":25}"
}

fn out_of_memory() -> &'static [u8]
    ensures { result.now ≡ fixed_response fixed.OutOfMemory }
{
    b"HTTP/1.1 507 Insufficient Storage\r\ncontent-type: application/json\r\ncontent-length: 35\r\nconnection: close\r\n\r\n{\"name\":\"OutOfMemory\",\"refusal\":24}"
}

fn ask_again() -> &'static [u8]
    ensures { result.now ≡ fixed_response fixed.AskAgain }
{
    b"HTTP/1.1 507 Insufficient Storage\r\ncontent-type: application/json\r\ncontent-length: 21\r\nconnection: close\r\n\r\n{\"fault\":\"ask again\"}"
}

/// The response.
pub fn fixed_response(fixed: Fixed) -> &'static [u8]
    ensures { result.now ≡ fixed_response fixed }
{
    match fixed {
        Fixed::BadOrigin => bad_origin(),
        Fixed::BadRequest => bad_request(),
        Fixed::NoSuchPath => no_such_path(),
        Fixed::NoSuchPackage => no_such_package(),
        Fixed::NoSuchReceipt => no_such_receipt(),
        Fixed::BadMethod => bad_method(),
        Fixed::NoLength => no_length(),
        Fixed::TooLarge => too_large(),
        Fixed::StoreFault => store_fault(),
        Fixed::OutOfMemory => out_of_memory(),
        Fixed::AskAgain => ask_again(),
    }
}
