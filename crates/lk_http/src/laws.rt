//! Laws of verdicts and of written messages.

ghost use Rattle.lk_http.specs.Law.{RepliesAreRead, RepliesHaveOne, RequestsAreRead, RequestsHaveOne, VerdictsStay};
ghost use Rattle.lk_http.specs.Replies.{replies};
ghost use Rattle.lk_http.specs.Requests.{requests};

/// Verdicts stay, and there is one.
pub fn verdict_laws()
    ensures requests_stay { VerdictsStay requests }
    ensures replies_stay { VerdictsStay replies }
    ensures requests_one { RequestsHaveOne }
    ensures replies_one { RepliesHaveOne }
{}

/// What is written is read, and of less of it more is needed.
pub fn message_laws()
    ensures requests { RequestsAreRead }
    ensures replies { RepliesAreRead }
{}
