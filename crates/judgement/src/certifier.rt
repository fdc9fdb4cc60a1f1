// What takes the records of a certificate to a book.
use book::{Book, Question};
use reader::Placed;
use zone::Zone;

// A book and the records of the certificate that it judges. The places are lent to each call.
#[derive(Clone, Copy)]
pub(crate) struct Certifier<'a, Z: Zone, Q: Question> {
    pub(crate) book: &'a Book<Z, Q>,
    pub(crate) records: &'a [Placed<'a>],
}
