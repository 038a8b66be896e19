//! The laws of where sessions stand.

ghost use Rattle.lk_course.specs.Laws.{AgreementLaw, ClientLaw, CountsLaw, EventsLaw, GoesOnLaw, LaterLaw, OfMeanings, OnlyLater, VisitLaw};

/// The laws of sessions, of visits and of counting, as facts. A call does nothing. The lemmas in `proofs/` say those of a meaning of code
/// for any frames.
///
/// `client`: what a client does by itself is a stretch of its session; a call of the server, and a value for the server's last call, take a
/// step, and then it waits for that visit. A visit is a stretch of the session. With its reply the client goes on with its own frames,
/// or with the call that the server asks for, or the session traps.
///
/// `visits`: a visit begins with its Enter, which takes no step; what is asked for is a stretch of it; its value, or its call of what the
/// client has, leaves with a step.
///
/// `goes_on`: the frames of a reply go on with the visit, for every value, and over all fuel, answers and returns that are left.
///
/// `events`: prints, readings and writings are stretches of one event; two stretches have the events of both.
///
/// `later`: where labels and frames only get later, so does a session wherever it stands, and a step of its own comes first.
///
/// `counts`: a session that goes on alone goes past its steps, comes to its next Enter, or ends, as the numbers of its evaluation's log say;
/// the prints between these numbers are those of the stretch.
///
/// `agrees`: a session that came to an end has all events of its evaluation, and one that came to anything else has its first ones.
pub fn course_laws()
    ensures client { OfMeanings ClientLaw }
    ensures visits { OfMeanings VisitLaw }
    ensures goes_on { OfMeanings GoesOnLaw }
    ensures events { EventsLaw }
    ensures later { OfMeanings (λ m. OnlyLater m → LaterLaw m) }
    ensures counts { CountsLaw }
    ensures agrees { AgreementLaw }
{}
