// What drafts of several kinds contain.
ghost use Rattle.std.specs.Prelude.{◌≡◌};
ghost use Rattle.xdr.specs.Writing.{Room, wrote};
ghost use Rattle.terms.specs.Numbers.{request_bytes};
ghost use Rattle.parts.specs.Encoding.{encode_request};

use terms::Request;
use xdr::Writer;

// Writes a request's five numbers.
#[tactic(auto, unfolding(parts::specs::Encoding::encode_request))]
pub fn put_request(request: Request, writer: &mut Writer<'_>)
    requires { Room writer.old request_bytes }
    ensures { writer.new ≡ wrote writer.old (encode_request request) }
{
    writer.put_rows(&[
        request.client,
        request.sequence,
        request.code,
        request.key,
        request.value,
    ]);
}
