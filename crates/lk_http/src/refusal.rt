//! Why a request is refused.

ghost use Rattle.std.specs.Prelude.{◌≡◌, true};
ghost use Rattle.lk_http.specs.Written.{code_of, is_status, status_of};

/// Why a request is refused before its body is looked at.
#[derive(Clone, Copy, Debug, PartialEq, Eq)]
pub enum HttpRefusal {
    BadRequest,
    NotFound,
    NotAllowed,
    LengthRequired,
    TooLarge,
    HeadTooLarge,
    NotImplemented,
}

impl HttpRefusal {
    /// The status of the reply.
    pub fn status(self) -> u16
        ensures status { result ≡ status_of self }
        ensures known { is_status result ≡ true }
    {
        match self {
            HttpRefusal::BadRequest => 400,
            HttpRefusal::NotFound => 404,
            HttpRefusal::NotAllowed => 405,
            HttpRefusal::LengthRequired => 411,
            HttpRefusal::TooLarge => 413,
            HttpRefusal::HeadTooLarge => 431,
            HttpRefusal::NotImplemented => 501,
        }
    }

    /// The word for it in the body of the reply.
    pub fn code(self) -> &'static str
        ensures { result.now ≡ code_of self }
    {
        match self {
            HttpRefusal::BadRequest => "bad-request",
            HttpRefusal::NotFound => "not-found",
            HttpRefusal::NotAllowed => "not-allowed",
            HttpRefusal::LengthRequired => "length-required",
            HttpRefusal::TooLarge => "too-large",
            HttpRefusal::HeadTooLarge => "head-too-large",
            HttpRefusal::NotImplemented => "not-implemented",
        }
    }
}
