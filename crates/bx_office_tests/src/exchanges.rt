//! Whole exchanges of octets, in pieces of several sizes.

use bx_office::{Address, Allowed, Client, Kind, Place, Reply, Route, Side, Stage, Status};
use std::alloc::{AllocError, Global};

/// An exchange: its name, what the client sends, and what it is sent, where `~` stands for the fields that each answer begins with. What is let
/// through is answered by the name of its route, its query and its body.
struct Case {
    name: &'static str,
    sent: &'static str,
    answer: &'static str,
}

/// The fields that each answer here begins with.
const COMMON: &[u8] =
    b"date: Sun, 29 Mar 2026 22:00:01 GMT\r\ncontent-type: text/plain; charset=utf-8\r\ncache-control: no-store\r\nx-content-type-options: nosniff\r\ncross-origin-resource-policy: same-origin\r\ncontent-security-policy: default-src 'none'; script-src 'self'; style-src 'self'; img-src 'self'; connect-src 'self'; base-uri 'none'; form-action 'none'; frame-ancestors 'none'\r\n";

/// What the clock shows meanwhile, in nanoseconds.
const SHOWN: u128 = 1_774_821_601_999_999_999;

static CASES: [Case; 47] = [
    Case {
        name: "nothing",
        sent: "",
        answer: "",
    },
    Case {
        name: "half a head",
        sent: "GET /plan HTTP/1.1\r\nHost: localhost:8080\r\n",
        answer: "",
    },
    Case {
        name: "a page",
        sent: "GET /plan HTTP/1.1\r\nHost: localhost:8080\r\n\r\n",
        answer: "HTTP/1.1 200 OK\r\n~vary: origin\r\ncontent-length: 6\r\n\r\nPlan||",
    },
    Case {
        name: "a page's head",
        sent: "HEAD /plan HTTP/1.1\r\nHost: localhost:8080\r\n\r\n",
        answer: "HTTP/1.1 200 OK\r\n~vary: origin\r\ncontent-length: 6\r\n\r\n",
    },
    Case {
        name: "a query",
        sent: "GET /quote?start=1&end=2?3 HTTP/1.1\r\nHost: localhost:8080\r\n\r\n",
        answer: "HTTP/1.1 200 OK\r\n~vary: origin\r\ncontent-length: 22\r\n\r\nQuote|start=1&end=2?3|",
    },
    Case {
        name: "bookings of a length",
        sent: "POST /bookings HTTP/1.1\r\nHost: localhost:8080\r\nContent-Type: text/csv\r\nContent-Length: 11\r\n\r\nstart,end\r\n",
        answer: "HTTP/1.1 200 OK\r\n~vary: origin\r\ncontent-length: 21\r\n\r\nBookings||start,end\r\n",
    },
    Case {
        name: "bookings in chunks",
        sent: "POST /bookings HTTP/1.1\r\nHost: localhost:8080\r\ncontent-type: text/csv; charset=utf-8\r\nTransfer-Encoding: chunked\r\n\r\n5\r\nstart\r\n4\r\n,end\r\n0\r\n\r\n",
        answer: "HTTP/1.1 200 OK\r\n~vary: origin\r\ncontent-length: 19\r\n\r\nBookings||start,end",
    },
    Case {
        name: "no bookings",
        sent: "POST /bookings HTTP/1.1\r\nHost: localhost:8080\r\nContent-Type: text/csv\r\nContent-Length: 0\r\n\r\n",
        answer: "HTTP/1.1 200 OK\r\n~vary: origin\r\ncontent-length: 10\r\n\r\nBookings||",
    },
    Case {
        name: "two pages, one behind the other",
        sent: "GET /plan HTTP/1.1\r\nHost: localhost:8080\r\n\r\nGET /outcomes HTTP/1.1\r\nHost: localhost:8080\r\n\r\n",
        answer: "HTTP/1.1 200 OK\r\n~vary: origin\r\ncontent-length: 6\r\n\r\nPlan||HTTP/1.1 200 OK\r\n~vary: origin\r\ncontent-length: 10\r\n\r\nOutcomes||",
    },
    Case {
        name: "bookings, and a page behind them",
        sent: "POST /bookings HTTP/1.1\r\nHost: localhost:8080\r\nContent-Type: text/csv\r\nContent-Length: 3\r\n\r\nabcGET /plan HTTP/1.1\r\nHost: localhost:8080\r\n\r\n",
        answer: "HTTP/1.1 200 OK\r\n~vary: origin\r\ncontent-length: 13\r\n\r\nBookings||abcHTTP/1.1 200 OK\r\n~vary: origin\r\ncontent-length: 6\r\n\r\nPlan||",
    },
    Case {
        name: "a page that closes, and one behind it",
        sent: "GET /plan HTTP/1.1\r\nHost: localhost:8080\r\nConnection: close\r\n\r\nGET /outcomes HTTP/1.1\r\nHost: localhost:8080\r\n\r\n",
        answer: "HTTP/1.1 200 OK\r\n~vary: origin\r\ncontent-length: 6\r\nconnection: close\r\n\r\nPlan||",
    },
    Case {
        name: "bookings that wait for leave",
        sent: "POST /bookings HTTP/1.1\r\nHost: localhost:8080\r\nContent-Type: text/csv\r\nContent-Length: 3\r\nExpect: 100-continue\r\n\r\nabc",
        answer: "HTTP/1.1 100 Continue\r\n\r\nHTTP/1.1 200 OK\r\n~vary: origin\r\ncontent-length: 13\r\n\r\nBookings||abc",
    },
    Case {
        name: "another host",
        sent: "GET /plan HTTP/1.1\r\nHost: example.org:8080\r\n\r\n",
        answer: "HTTP/1.1 403 Forbidden\r\n~vary: origin\r\ncontent-length: 13\r\n\r\nanother host\n",
    },
    Case {
        name: "another origin",
        sent: "POST /bookings HTTP/1.1\r\nHost: localhost:8080\r\nOrigin: http://example.org\r\nContent-Type: text/csv\r\nContent-Length: 3\r\n\r\nabc",
        answer: "HTTP/1.1 403 Forbidden\r\n~vary: origin\r\nconnection: close\r\ncontent-length: 15\r\n\r\nanother origin\n",
    },
    Case {
        name: "no such page, and a page behind it",
        sent: "GET /nothing HTTP/1.1\r\nHost: localhost:8080\r\n\r\nGET /plan HTTP/1.1\r\nHost: localhost:8080\r\n\r\n",
        answer: "HTTP/1.1 404 Not Found\r\n~vary: origin\r\ncontent-length: 13\r\n\r\nno such page\nHTTP/1.1 200 OK\r\n~vary: origin\r\ncontent-length: 6\r\n\r\nPlan||",
    },
    Case {
        name: "bookings got",
        sent: "GET /bookings HTTP/1.1\r\nHost: localhost:8080\r\n\r\n",
        answer: "HTTP/1.1 405 Method Not Allowed\r\n~allow: POST\r\ncontent-length: 5\r\n\r\nPOST\n",
    },
    Case {
        name: "a plan posted",
        sent: "POST /plan HTTP/1.1\r\nHost: localhost:8080\r\nContent-Length: 0\r\n\r\n",
        answer: "HTTP/1.1 405 Method Not Allowed\r\n~allow: GET, HEAD\r\ncontent-length: 4\r\n\r\nGET\n",
    },
    Case {
        name: "a form posted",
        sent: "POST /bookings HTTP/1.1\r\nHost: localhost:8080\r\nContent-Type: application/x-www-form-urlencoded\r\nContent-Length: 3\r\n\r\na=b",
        answer: "HTTP/1.1 415 Unsupported Media Type\r\n~vary: origin\r\nconnection: close\r\ncontent-length: 22\r\n\r\nbookings are text/csv\n",
    },
    Case {
        name: "a form that waits for leave",
        sent: "POST /bookings HTTP/1.1\r\nHost: localhost:8080\r\nContent-Type: text/plain\r\nContent-Length: 3\r\nExpect: 100-continue\r\n\r\n",
        answer: "HTTP/1.1 415 Unsupported Media Type\r\n~vary: origin\r\nconnection: close\r\ncontent-length: 22\r\n\r\nbookings are text/csv\n",
    },
    Case {
        name: "too long a body is announced",
        sent: "POST /bookings HTTP/1.1\r\nHost: localhost:8080\r\nContent-Type: text/csv\r\nContent-Length: 4194305\r\n\r\nabc",
        answer: "HTTP/1.1 413 Content Too Large\r\n~vary: origin\r\nconnection: close\r\ncontent-length: 25\r\n\r\nmore than 4194304 octets\n",
    },
    Case {
        name: "a coding",
        sent: "POST /bookings HTTP/1.1\r\nHost: localhost:8080\r\nContent-Type: text/csv\r\nTransfer-Encoding: gzip, chunked\r\n\r\n",
        answer: "HTTP/1.1 501 Not Implemented\r\n~vary: origin\r\nconnection: close\r\ncontent-length: 21\r\n\r\na coding of the body\n",
    },
    Case {
        name: "no host",
        sent: "GET /plan HTTP/1.1\r\n\r\n",
        answer: "HTTP/1.1 400 Bad Request\r\n~vary: origin\r\nconnection: close\r\ncontent-length: 23\r\n\r\nno request of HTTP/1.1\n",
    },
    Case {
        name: "two hosts",
        sent: "GET /plan HTTP/1.1\r\nHost: localhost:8080\r\nHost: localhost:8080\r\n\r\n",
        answer: "HTTP/1.1 400 Bad Request\r\n~vary: origin\r\nconnection: close\r\ncontent-length: 23\r\n\r\nno request of HTTP/1.1\n",
    },
    Case {
        name: "two framings",
        sent: "POST /bookings HTTP/1.1\r\nHost: localhost:8080\r\nContent-Type: text/csv\r\nContent-Length: 3\r\nTransfer-Encoding: chunked\r\n\r\nabc",
        answer: "HTTP/1.1 400 Bad Request\r\n~vary: origin\r\nconnection: close\r\ncontent-length: 23\r\n\r\nno request of HTTP/1.1\n",
    },
    Case {
        name: "no HTTP",
        sent: "start,end,number,pay\n1,2,3,4\n",
        answer: "HTTP/1.1 400 Bad Request\r\n~vary: origin\r\nconnection: close\r\ncontent-length: 23\r\n\r\nno request of HTTP/1.1\n",
    },
    Case {
        name: "a bad chunk",
        sent: "POST /bookings HTTP/1.1\r\nHost: localhost:8080\r\nContent-Type: text/csv\r\nTransfer-Encoding: chunked\r\n\r\nzz\r\n",
        answer: "HTTP/1.1 400 Bad Request\r\n~vary: origin\r\nconnection: close\r\ncontent-length: 23\r\n\r\nno request of HTTP/1.1\n",
    },
    Case {
        name: "another protocol is asked for",
        sent: "GET /plan HTTP/1.1\r\nHost: localhost:8080\r\nConnection: upgrade\r\nUpgrade: websocket\r\n\r\n",
        answer: "HTTP/1.1 200 OK\r\n~vary: origin\r\ncontent-length: 6\r\n\r\nPlan||",
    },
    Case {
        name: "a tunnel",
        sent: "CONNECT localhost:8080 HTTP/1.1\r\nHost: localhost:8080\r\n\r\n",
        answer: "HTTP/1.1 501 Not Implemented\r\n~vary: origin\r\ncontent-length: 15\r\n\r\nno such method\n",
    },
    Case {
        name: "the absolute form, whose host counts",
        sent: "GET http://LOCALHOST:8080/quote?start=1 HTTP/1.1\r\nHost: example.org\r\n\r\n",
        answer: "HTTP/1.1 200 OK\r\n~vary: origin\r\ncontent-length: 14\r\n\r\nQuote|start=1|",
    },
    Case {
        name: "the absolute form of another host",
        sent: "GET http://example.org/plan HTTP/1.1\r\nHost: localhost:8080\r\n\r\n",
        answer: "HTTP/1.1 403 Forbidden\r\n~vary: origin\r\ncontent-length: 13\r\n\r\nanother host\n",
    },
    Case {
        name: "a type in capitals, with white space",
        sent: "POST /bookings HTTP/1.1\r\nHost: LocalHost:8080\r\nContent-Type: Text/CSV\t ;charset=utf-8\r\nContent-Encoding: Identity\r\nContent-Length: 3\r\n\r\nabc",
        answer: "HTTP/1.1 200 OK\r\n~vary: origin\r\ncontent-length: 13\r\n\r\nBookings||abc",
    },
    Case {
        name: "bookings in chunks",
        sent: "POST /bookings HTTP/1.1\r\nHost: localhost:8080\r\nContent-Type: text/csv\r\nTransfer-Encoding: chunked\r\n\r\n3\r\nabc\r\n0\r\n\r\n",
        answer: "HTTP/1.1 200 OK\r\n~vary: origin\r\ncontent-length: 13\r\n\r\nBookings||abc",
    },
    Case {
        name: "two origins",
        sent: "GET /plan HTTP/1.1\r\nHost: localhost:8080\r\nOrigin: http://localhost:8080\r\norigin: http://example.org\r\n\r\n",
        answer: "HTTP/1.1 400 Bad Request\r\n~vary: origin\r\ncontent-length: 40\r\n\r\ntwo of one field of which one may stand\n",
    },
    Case {
        name: "two types",
        sent: "POST /bookings HTTP/1.1\r\nHost: localhost:8080\r\nContent-Type: text/csv\r\nContent-Type: text/csv\r\nContent-Length: 3\r\n\r\nabc",
        answer: "HTTP/1.1 400 Bad Request\r\n~vary: origin\r\nconnection: close\r\ncontent-length: 40\r\n\r\ntwo of one field of which one may stand\n",
    },
    Case {
        name: "two lengths, which are the same",
        sent: "POST /bookings HTTP/1.1\r\nHost: localhost:8080\r\nContent-Type: text/csv\r\nContent-Length: 3\r\nContent-Length: 3\r\n\r\nabc",
        answer: "HTTP/1.1 400 Bad Request\r\n~vary: origin\r\nconnection: close\r\ncontent-length: 40\r\n\r\ntwo of one field of which one may stand\n",
    },
    Case {
        name: "bookings with a key",
        sent: "POST /bookings HTTP/1.1\r\nHost: localhost:8080\r\nContent-Type: text/csv\r\nIdempotency-Key: \"8e03978e-40d5-43e8-bc93-6894a57f9324\"\r\nContent-Length: 3\r\n\r\nabc",
        answer: "HTTP/1.1 200 OK\r\n~vary: origin\r\ncontent-length: 13\r\n\r\nBookings||abc",
    },
    Case {
        name: "bookings with a key that is none",
        sent: "POST /bookings HTTP/1.1\r\nHost: localhost:8080\r\nContent-Type: text/csv\r\nIdempotency-Key: one two\r\nContent-Length: 3\r\n\r\nabc",
        answer: "HTTP/1.1 400 Bad Request\r\n~vary: origin\r\nconnection: close\r\ncontent-length: 68\r\n\r\nthe Idempotency-Key is 1 to 64 visible characters, in quotes or not\n",
    },
    Case {
        name: "no bookings with a key of nothing, and a page behind them",
        sent: "POST /bookings HTTP/1.1\r\nHost: localhost:8080\r\nContent-Type: text/csv\r\nidempotency-key:\r\nContent-Length: 0\r\n\r\nGET /plan HTTP/1.1\r\nHost: localhost:8080\r\n\r\n",
        answer: "HTTP/1.1 400 Bad Request\r\n~vary: origin\r\ncontent-length: 68\r\n\r\nthe Idempotency-Key is 1 to 64 visible characters, in quotes or not\nHTTP/1.1 200 OK\r\n~vary: origin\r\ncontent-length: 6\r\n\r\nPlan||",
    },
    Case {
        name: "two keys, which are the same",
        sent: "POST /bookings HTTP/1.1\r\nHost: localhost:8080\r\nContent-Type: text/csv\r\nIdempotency-Key: one\r\nidempotency-key: one\r\nContent-Length: 3\r\n\r\nabc",
        answer: "HTTP/1.1 400 Bad Request\r\n~vary: origin\r\nconnection: close\r\ncontent-length: 40\r\n\r\ntwo of one field of which one may stand\n",
    },
    Case {
        name: "a page with a key that is none",
        sent: "GET /plan HTTP/1.1\r\nHost: localhost:8080\r\nIdempotency-Key: one two\r\n\r\n",
        answer: "HTTP/1.1 200 OK\r\n~vary: origin\r\ncontent-length: 6\r\n\r\nPlan||",
    },
    Case {
        name: "bookings without a length",
        sent: "POST /bookings HTTP/1.1\r\nHost: localhost:8080\r\nContent-Type: text/csv\r\n\r\n",
        answer: "HTTP/1.1 411 Length Required\r\n~vary: origin\r\ncontent-length: 23\r\n\r\nbookings have a length\n",
    },
    Case {
        name: "coded bookings",
        sent: "POST /bookings HTTP/1.1\r\nHost: localhost:8080\r\nContent-Type: text/csv\r\nContent-Encoding: gzip\r\nContent-Length: 3\r\n\r\nabc",
        answer: "HTTP/1.1 415 Unsupported Media Type\r\n~accept-encoding: identity\r\nconnection: close\r\ncontent-length: 23\r\n\r\nbookings are not coded\n",
    },
    Case {
        name: "a method that is none",
        sent: "BREW /plan HTTP/1.1\r\nHost: localhost:8080\r\n\r\n",
        answer: "HTTP/1.1 501 Not Implemented\r\n~vary: origin\r\ncontent-length: 15\r\n\r\nno such method\n",
    },
    Case {
        name: "a method of another path",
        sent: "DELETE /plan HTTP/1.1\r\nHost: localhost:8080\r\n\r\n",
        answer: "HTTP/1.1 405 Method Not Allowed\r\n~allow: GET, HEAD\r\ncontent-length: 4\r\n\r\nGET\n",
    },
    Case {
        name: "what there is got as a whole",
        sent: "GET * HTTP/1.1\r\nHost: localhost:8080\r\n\r\n",
        answer: "HTTP/1.1 405 Method Not Allowed\r\n~allow: OPTIONS\r\ncontent-length: 8\r\n\r\nOPTIONS\n",
    },
    Case {
        name: "another version",
        sent: "GET /plan HTTP/2.0\r\nHost: localhost:8080\r\n\r\n",
        answer: "HTTP/1.1 505 HTTP Version Not Supported\r\n~vary: origin\r\nconnection: close\r\ncontent-length: 31\r\n\r\nHTTP/1.1 and HTTP/1.0 are read\n",
    },
    Case {
        name: "no version of HTTP",
        sent: "GET /plan FTP/2.0\r\nHost: localhost:8080\r\n\r\n",
        answer: "HTTP/1.1 400 Bad Request\r\n~vary: origin\r\nconnection: close\r\ncontent-length: 23\r\n\r\nno request of HTTP/1.1\n",
    },
];

/// Bookings that are given up and changed. A table of their own, since one of all is past what the prover counts.
static CHANGES: [Case; 13] = [
    Case {
        name: "a booking cancelled, and a page behind it",
        sent: "DELETE /bookings/17 HTTP/1.1\r\nHost: localhost:8080\r\n\r\nGET /plan HTTP/1.1\r\nHost: localhost:8080\r\n\r\n",
        answer: "HTTP/1.1 200 OK\r\n~vary: origin\r\ncontent-length: 8\r\n\r\nCancel||HTTP/1.1 200 OK\r\n~vary: origin\r\ncontent-length: 6\r\n\r\nPlan||",
    },
    Case {
        name: "a booking cancelled, with a body",
        sent: "DELETE /bookings/17 HTTP/1.1\r\nHost: localhost:8080\r\nContent-Length: 3\r\n\r\nabcGET /plan HTTP/1.1\r\nHost: localhost:8080\r\n\r\n",
        answer: "HTTP/1.1 200 OK\r\n~vary: origin\r\ncontent-length: 11\r\n\r\nCancel||abcHTTP/1.1 200 OK\r\n~vary: origin\r\ncontent-length: 6\r\n\r\nPlan||",
    },
    Case {
        name: "a booking cancelled, with a key that is none",
        sent: "DELETE /bookings/17 HTTP/1.1\r\nHost: localhost:8080\r\nIdempotency-Key: one two\r\n\r\n",
        answer: "HTTP/1.1 200 OK\r\n~vary: origin\r\ncontent-length: 8\r\n\r\nCancel||",
    },
    Case {
        name: "a booking changed, and a page behind it",
        sent: "PUT /bookings/17 HTTP/1.1\r\nHost: localhost:8080\r\nContent-Type: text/csv\r\nContent-Length: 3\r\n\r\nabcGET /plan HTTP/1.1\r\nHost: localhost:8080\r\n\r\n",
        answer: "HTTP/1.1 200 OK\r\n~vary: origin\r\ncontent-length: 11\r\n\r\nChange||abcHTTP/1.1 200 OK\r\n~vary: origin\r\ncontent-length: 6\r\n\r\nPlan||",
    },
    Case {
        name: "a booking changed in chunks",
        sent: "PUT /bookings/17 HTTP/1.1\r\nHost: localhost:8080\r\nContent-Type: text/csv\r\nTransfer-Encoding: chunked\r\n\r\n3\r\nabc\r\n0\r\n\r\n",
        answer: "HTTP/1.1 200 OK\r\n~vary: origin\r\ncontent-length: 11\r\n\r\nChange||abc",
    },
    Case {
        name: "a booking changed, which waits for leave",
        sent: "PUT /bookings/17 HTTP/1.1\r\nHost: localhost:8080\r\nContent-Type: text/csv\r\nContent-Length: 3\r\nExpect: 100-continue\r\n\r\nabc",
        answer: "HTTP/1.1 100 Continue\r\n\r\nHTTP/1.1 200 OK\r\n~vary: origin\r\ncontent-length: 11\r\n\r\nChange||abc",
    },
    Case {
        name: "a booking changed, with a key that is none",
        sent: "PUT /bookings/17 HTTP/1.1\r\nHost: localhost:8080\r\nContent-Type: text/csv\r\nIdempotency-Key: one two\r\nContent-Length: 3\r\n\r\nabc",
        answer: "HTTP/1.1 400 Bad Request\r\n~vary: origin\r\nconnection: close\r\ncontent-length: 68\r\n\r\nthe Idempotency-Key is 1 to 64 visible characters, in quotes or not\n",
    },
    Case {
        name: "a booking changed without a length",
        sent: "PUT /bookings/17 HTTP/1.1\r\nHost: localhost:8080\r\nContent-Type: text/csv\r\n\r\n",
        answer: "HTTP/1.1 411 Length Required\r\n~vary: origin\r\ncontent-length: 23\r\n\r\nbookings have a length\n",
    },
    Case {
        name: "a booking changed by too long a body",
        sent: "PUT /bookings/17 HTTP/1.1\r\nHost: localhost:8080\r\nContent-Type: text/csv\r\nContent-Length: 4194305\r\n\r\nabc",
        answer: "HTTP/1.1 413 Content Too Large\r\n~vary: origin\r\nconnection: close\r\ncontent-length: 25\r\n\r\nmore than 4194304 octets\n",
    },
    Case {
        name: "a booking changed by a form",
        sent: "PUT /bookings/17 HTTP/1.1\r\nHost: localhost:8080\r\nContent-Type: text/plain\r\nContent-Length: 3\r\n\r\na=b",
        answer: "HTTP/1.1 415 Unsupported Media Type\r\n~vary: origin\r\nconnection: close\r\ncontent-length: 22\r\n\r\nbookings are text/csv\n",
    },
    Case {
        name: "a booking got",
        sent: "GET /bookings/17 HTTP/1.1\r\nHost: localhost:8080\r\n\r\n",
        answer: "HTTP/1.1 405 Method Not Allowed\r\n~allow: DELETE, PUT\r\ncontent-length: 12\r\n\r\nDELETE, PUT\n",
    },
    Case {
        name: "a booking of row 0",
        sent: "DELETE /bookings/0 HTTP/1.1\r\nHost: localhost:8080\r\n\r\n",
        answer: "HTTP/1.1 404 Not Found\r\n~vary: origin\r\ncontent-length: 13\r\n\r\nno such page\n",
    },
    Case {
        name: "a booking cancelled by another page",
        sent: "DELETE /bookings/17 HTTP/1.1\r\nHost: localhost:8080\r\nOrigin: http://example.org\r\n\r\n",
        answer: "HTTP/1.1 403 Forbidden\r\n~vary: origin\r\ncontent-length: 15\r\n\r\nanother origin\n",
    },
];

/// The sizes of the pieces in which octets come.
const SIZES: [usize; 5] = [1, 2, 7, 64, 16_384];

/// The name of a route.
fn name_of(route: Route) -> &'static [u8] {
    match route {
        Route::Bookings => b"Bookings|",
        Route::Quote => b"Quote|",
        Route::Free => b"Free|",
        Route::Plan => b"Plan|",
        Route::Cancel(_) => b"Cancel|",
        Route::Change(_) => b"Change|",
        _ => b"Outcomes|",
    }
}

/// Answers a request by the name of its route, its query and its body.
fn answer(alloc: Global, client: &mut Client, route: Route) -> Result<(), AllocError> {
    let mut body = Vec::new(alloc);
    body.extend_from_slice(name_of(route))?;
    body.extend_from_slice(client.query())?;
    body.extend_from_slice(b"|")?;
    body.extend_from_slice(client.body())?;
    client.answer(Reply {
        status: Status::Fine,
        kind: Kind::Text,
        allowed: Allowed::Unsaid,
        body: &body,
    });
    Ok(())
}

/// Reads on in what came, where so many octets of a body may be kept, and answers.
fn advance(alloc: Global, client: &mut Client, free: usize) -> Result<(), AllocError> {
    for _step in 0..100_000u32 {
        if !client.step(free) {
            break;
        }
    }
    if let Stage::Asked(route) = client.stage() {
        answer(alloc, client, route)?;
    }
    Ok(())
}

/// Where the client comes in.
const PLACE: Place = Place {
    address: Address::Port(8080),
    side: Side::Operators,
};

/// The most octets that a body has.
const MAX_BODY: usize = 4_194_304;

/// Gives a client octets in pieces of this size, where so many octets of a body may be kept, and gathers what it is sent.
fn exchange(alloc: Global, sent: &[u8], size: usize, free: usize) -> Result<Vec<u8>, AllocError> {
    let mut client = Client::new(alloc, PLACE);
    client.set_clock(SHOWN);
    let mut got = Vec::new(alloc);
    let mut rest = sent;
    for _turn in 0..100_000u32 {
        let count = client.room().min(size).min(rest.len());
        client.take(&rest[..count]);
        rest = &rest[count..];
        advance(alloc, &mut client, free)?;
        let pending = client.pending().len();
        got.extend_from_slice(client.pending())?;
        client.sent(pending);
        if client.is_over() || (count == 0 && pending == 0) {
            return Ok(got);
        }
    }
    Ok(got)
}

/// An answer of the table, with the fields that each answer begins with.
fn whole(alloc: Global, answer: &str) -> Result<Vec<u8>, AllocError> {
    let mut text = Vec::new(alloc);
    for octet in answer.as_bytes() {
        match *octet {
            b'~' => text.extend_from_slice(COMMON)?,
            other => text.push(other)?,
        }
    }
    Ok(text)
}

/// Whether the client is sent just this, where octets come in pieces of this size.
fn is_sent(alloc: Global, case: &Case, size: usize) -> Result<bool, AllocError> {
    let got = exchange(alloc, case.sent.as_bytes(), size, MAX_BODY)?;
    let wanted = whole(alloc, case.answer)?;
    Ok(got.as_slice() == wanted.as_slice())
}

/// Whether the client is sent just this, whatever the size of the pieces.
fn answers(alloc: Global, case: &Case) -> bool {
    for size in SIZES {
        if !matches!(is_sent(alloc, case, size), Ok(true)) {
            return false;
        }
    }
    true
}

#[test]
fn clients_are_answered(rt: HostRuntime) {
    for case in &CASES {
        assert!(rt; answers(rt.alloc(), case), "{}", case.name);
    }
}

#[test]
fn clients_that_change_bookings_are_answered(rt: HostRuntime) {
    for case in &CHANGES {
        assert!(rt; answers(rt.alloc(), case), "{}", case.name);
    }
}

/// Heads that are too long: their name, what they begin with, what comes again and again after that, how often, and the answer.
type Long = (&'static str, &'static str, &'static str, u32, &'static str);

static LONG: [Long; 5] = [
    (
        "a target",
        "GET /",
        "x",
        16_400,
        "HTTP/1.1 414 URI Too Long\r\n~vary: origin\r\nconnection: close\r\ncontent-length: 23\r\n\r\nthe target is too long\n",
    ),
    (
        "a field",
        "GET / HTTP/1.1\r\nHost: localhost:8080\r\nA: ",
        "x",
        16_400,
        "HTTP/1.1 431 Request Header Fields Too Large\r\n~vary: origin\r\nconnection: close\r\ncontent-length: 35\r\n\r\nthe head is more than 16384 octets\n",
    ),
    (
        "65 fields",
        "GET / HTTP/1.1\r\nHost: localhost:8080\r\n",
        "A: b\r\n",
        64,
        "HTTP/1.1 431 Request Header Fields Too Large\r\n~vary: origin\r\nconnection: close\r\ncontent-length: 33\r\n\r\nthe head has more than 64 fields\n",
    ),
    (
        "64 fields, and no end",
        "GET / HTTP/1.1\r\nHost: localhost:8080\r\n",
        "A: b\r\n",
        63,
        "",
    ),
    (
        "blank lines",
        "",
        "\r\n",
        8_200,
        "HTTP/1.1 400 Bad Request\r\n~vary: origin\r\nconnection: close\r\ncontent-length: 28\r\n\r\n16384 octets of blank lines\n",
    ),
];

/// Whether the client that sends such a head is answered so.
fn is_told(alloc: Global, long: &Long) -> Result<bool, AllocError> {
    let mut sent = Vec::new(alloc);
    sent.extend_from_slice(long.1.as_bytes())?;
    for _time in 0..long.3 {
        sent.extend_from_slice(long.2.as_bytes())?;
    }
    let got = exchange(alloc, &sent, 4096, MAX_BODY)?;
    let wanted = whole(alloc, long.4)?;
    Ok(got.as_slice() == wanted.as_slice())
}

#[test]
fn long_heads_are_told(rt: HostRuntime) {
    for long in &LONG {
        assert!(rt; matches!(is_told(rt.alloc(), long), Ok(true)), "{}", long.0);
    }
}

/// Bodies where few octets may be kept: the name, how many are free, the length that is said or the chunks, the body, and the answer.
type Kept = (
    &'static str,
    usize,
    &'static str,
    &'static str,
    &'static str,
);

const TOO_MANY: &str =
    "HTTP/1.1 503 Service Unavailable\r\n~retry-after: 1\r\nconnection: close\r\ncontent-length: 24\r\n\r\ntoo many bodies at once\n";

const TAKEN: &str = "HTTP/1.1 200 OK\r\n~vary: origin\r\ncontent-length: 13\r\n\r\nBookings||abc";

static KEPT: [Kept; 5] = [
    ("just enough", 3, "Content-Length: 3", "abc", TAKEN),
    ("one too few", 2, "Content-Length: 3", "abc", TOO_MANY),
    ("none at all", 0, "Content-Length: 3", "abc", TOO_MANY),
    (
        "chunks, enough",
        MAX_BODY,
        "Transfer-Encoding: chunked",
        "3\r\nabc\r\n0\r\n\r\n",
        TAKEN,
    ),
    (
        "chunks, one too few",
        MAX_BODY - 1,
        "Transfer-Encoding: chunked",
        "3\r\nabc\r\n0\r\n\r\n",
        TOO_MANY,
    ),
];

/// Whether the client that sends such a body is answered so.
fn is_kept(alloc: Global, kept: &Kept) -> Result<bool, AllocError> {
    let head = "POST /bookings HTTP/1.1\r\nHost: localhost:8080\r\nContent-Type: text/csv\r\n";
    let mut sent = Vec::new(alloc);
    for part in [head, kept.2, "\r\n\r\n", kept.3] {
        sent.extend_from_slice(part.as_bytes())?;
    }
    let got = exchange(alloc, &sent, 4096, kept.1)?;
    let wanted = whole(alloc, kept.4)?;
    Ok(got.as_slice() == wanted.as_slice())
}

#[test]
fn bodies_are_kept_where_there_is_room(rt: HostRuntime) {
    for kept in &KEPT {
        assert!(rt; matches!(is_kept(rt.alloc(), kept), Ok(true)), "{}", kept.0);
    }
}
