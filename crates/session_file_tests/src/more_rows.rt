//! More texts read as sessions, beside near misses: keys, numbers, places, types, escapes, names.
use crate::rows::Seen;

/// What each text is.
pub const MORE_ROWS: [(&str, Seen); 86] = [
    (
        "{\"cursor\":0,\"format\":\"reactor-session\",\"inputs\":[],\"version\":1}",
        Seen::Bad,
    ),
    (
        "{\"cursor\":0,\"events\":[],\"inputs\":[],\"version\":1}",
        Seen::Bad,
    ),
    (
        "{\"cursor\":0,\"events\":[],\"format\":\"reactor-session\",\"version\":1}",
        Seen::Bad,
    ),
    (
        "{\"cursor\":0,\"events\":[],\"format\":\"reactor-session\",\"inputs\":[]}",
        Seen::Bad,
    ),
    (
        "{\"cursor\":0,\"events\":[],\"format\":\"reactor-session\",\"inputs\":[],\"version\":1,\"cursor\":0}",
        Seen::Session(0, 0),
    ),
    (
        "{\"cursor\":9,\"events\":[],\"format\":\"reactor-session\",\"inputs\":[],\"version\":1,\"cursor\":0}",
        Seen::Session(0, 0),
    ),
    (
        "{\"cursor\":0,\"events\":[],\"format\":\"reactor-session\",\"inputs\":[],\"version\":1,\"cursor\":9}",
        Seen::Bad,
    ),
    (
        "{\"cursor\":0,\"events\":[7],\"format\":\"reactor-session\",\"inputs\":[],\"version\":1,\"events\":[[7]]}",
        Seen::Session(0, 1),
    ),
    (
        "{\"cursor\":0,\"events\":[],\"format\":\"reactor-session\",\"inputs\":[],\"version\":1,\"format\":\"session\"}",
        Seen::Bad,
    ),
    (
        "{\"cursor\":0,\"events\":[],\"format\":\"reactor-session\",\"inputs\":[[\"p\",\"Int\"]],\"version\":1,\"inputs\":[]}",
        Seen::Session(0, 0),
    ),
    (
        "{\"cursor\":0,\"events\":[],\"format\":\"reactor-session\",\"inputs\":[],\"version\":2,\"version\":1}",
        Seen::Session(0, 0),
    ),
    (
        "{\"cursor\":0,\"events\":[],\"format\":\"reactor-session\",\"inputs\":[],\"version\":1,\"version\":2}",
        Seen::Bad,
    ),
    (
        "{\"cursor\":\"0\",\"events\":[],\"format\":\"reactor-session\",\"inputs\":[],\"version\":1}",
        Seen::Bad,
    ),
    (
        "{\"cursor\":null,\"events\":[],\"format\":\"reactor-session\",\"inputs\":[],\"version\":1}",
        Seen::Bad,
    ),
    (
        "{\"cursor\":[0],\"events\":[],\"format\":\"reactor-session\",\"inputs\":[],\"version\":1}",
        Seen::Bad,
    ),
    (
        "{\"cursor\":0,\"events\":{},\"format\":\"reactor-session\",\"inputs\":[],\"version\":1}",
        Seen::Bad,
    ),
    (
        "{\"cursor\":0,\"events\":null,\"format\":\"reactor-session\",\"inputs\":[],\"version\":1}",
        Seen::Bad,
    ),
    (
        "{\"cursor\":0,\"events\":[],\"format\":1,\"inputs\":[],\"version\":1}",
        Seen::Bad,
    ),
    (
        "{\"cursor\":0,\"events\":[],\"format\":[\"reactor-session\"],\"inputs\":[],\"version\":1}",
        Seen::Bad,
    ),
    (
        "{\"cursor\":0,\"events\":[],\"format\":\"reactor-session\",\"inputs\":{},\"version\":1}",
        Seen::Bad,
    ),
    (
        "{\"cursor\":0,\"events\":[],\"format\":\"reactor-session\",\"inputs\":0,\"version\":1}",
        Seen::Bad,
    ),
    (
        "{\"cursor\":0,\"events\":[],\"format\":\"reactor-session\",\"inputs\":[],\"version\":\"1\"}",
        Seen::Bad,
    ),
    (
        "{\"cursor\":0,\"events\":[],\"format\":\"reactor-session\",\"inputs\":[],\"version\":true}",
        Seen::Bad,
    ),
    (
        "{\"cursor\":0,\"events\":[],\"format\":\"reactor-session\",\"inputs\":[],\"version\":1.0}",
        Seen::Bad,
    ),
    (
        "{\"cursor\":0,\"events\":[],\"format\":\"reactor-session\",\"inputs\":[],\"version\":1e0}",
        Seen::Bad,
    ),
    (
        "{\"cursor\":1e0,\"events\":[[7]],\"format\":\"reactor-session\",\"inputs\":[],\"version\":1}",
        Seen::Bad,
    ),
    (
        "{\"cursor\":01,\"events\":[[7]],\"format\":\"reactor-session\",\"inputs\":[],\"version\":1}",
        Seen::Bad,
    ),
    (
        "{\"cursor\":0,\"events\":[[3.0]],\"format\":\"reactor-session\",\"inputs\":[],\"version\":1}",
        Seen::Bad,
    ),
    (
        "{\"cursor\":0,\"events\":[[-0]],\"format\":\"reactor-session\",\"inputs\":[],\"version\":1}",
        Seen::Bad,
    ),
    (
        "{\"cursor\":0,\"events\":[[-1]],\"format\":\"reactor-session\",\"inputs\":[],\"version\":1}",
        Seen::Bad,
    ),
    (
        "{\"cursor\":0,\"events\":[[18446744073709551616]],\"format\":\"reactor-session\",\"inputs\":[],\"version\":1}",
        Seen::Bad,
    ),
    (
        "{\"cursor\":0,\"events\":[[0.0,\"5\"]],\"format\":\"reactor-session\",\"inputs\":[[\"p\",\"Int\"]],\"version\":1}",
        Seen::Bad,
    ),
    (
        "{\"cursor\":0,\"events\":[[-0,\"5\"]],\"format\":\"reactor-session\",\"inputs\":[[\"p\",\"Int\"]],\"version\":1}",
        Seen::Bad,
    ),
    (
        "{\"cursor\":0,\"events\":[[1,\"5\"]],\"format\":\"reactor-session\",\"inputs\":[[\"p\",\"Int\"]],\"version\":1}",
        Seen::Bad,
    ),
    (
        "{\"cursor\":0,\"events\":[[18446744073709551615,\"5\"]],\"format\":\"reactor-session\",\"inputs\":[[\"p\",\"Int\"]],\"version\":1}",
        Seen::Bad,
    ),
    (
        "{\"cursor\":0,\"events\":[[\"0\",\"5\"]],\"format\":\"reactor-session\",\"inputs\":[[\"p\",\"Int\"]],\"version\":1}",
        Seen::Bad,
    ),
    (
        "{\"cursor\":1,\"events\":[[0]],\"format\":\"reactor-session\",\"inputs\":[],\"version\":1}",
        Seen::Session(1, 1),
    ),
    (
        "{\"cursor\":0,\"events\":[{}],\"format\":\"reactor-session\",\"inputs\":[[\"p\",\"Int\"]],\"version\":1}",
        Seen::Bad,
    ),
    (
        "{\"cursor\":0,\"events\":[null],\"format\":\"reactor-session\",\"inputs\":[[\"p\",\"Int\"]],\"version\":1}",
        Seen::Bad,
    ),
    (
        "{\"cursor\":0,\"events\":[7],\"format\":\"reactor-session\",\"inputs\":[[\"p\",\"Int\"]],\"version\":1}",
        Seen::Bad,
    ),
    (
        "{\"cursor\":0,\"events\":[[0,\"5\",null]],\"format\":\"reactor-session\",\"inputs\":[[\"p\",\"Int\"]],\"version\":1}",
        Seen::Bad,
    ),
    (
        "{\"cursor\":0,\"events\":[[\"5\",0]],\"format\":\"reactor-session\",\"inputs\":[[\"p\",\"Int\"]],\"version\":1}",
        Seen::Bad,
    ),
    (
        "{\"cursor\":0,\"events\":[[0,\"5\"]],\"format\":\"reactor-session\",\"inputs\":[[\"p\"]],\"version\":1}",
        Seen::Bad,
    ),
    (
        "{\"cursor\":0,\"events\":[[0,\"5\"]],\"format\":\"reactor-session\",\"inputs\":[[\"p\",\"Int\",1]],\"version\":1}",
        Seen::Bad,
    ),
    (
        "{\"cursor\":0,\"events\":[[0,\"5\"]],\"format\":\"reactor-session\",\"inputs\":[[\"p\",1]],\"version\":1}",
        Seen::Bad,
    ),
    (
        "{\"cursor\":0,\"events\":[[0,\"5\"]],\"format\":\"reactor-session\",\"inputs\":[[1,\"Int\"]],\"version\":1}",
        Seen::Bad,
    ),
    (
        "{\"cursor\":0,\"events\":[[0,\"5\"]],\"format\":\"reactor-session\",\"inputs\":[\"p\"],\"version\":1}",
        Seen::Bad,
    ),
    (
        "{\"cursor\":0,\"events\":[[0,\"1\"],[0,\"2\"],[1,\"3\"],[0,\"4\"],[1,\"5\"]],\"format\":\"reactor-session\",\"inputs\":[[\"p\",\"Int\"],[\"q\",\"Int\"]],\"version\":1}",
        Seen::Session(0, 5),
    ),
    (
        "{\"cursor\":0,\"events\":[[1,\"3\"]],\"format\":\"reactor-session\",\"inputs\":[[\"p\",\"Int\"],[\"q\",\"Int\"]],\"version\":1}",
        Seen::Bad,
    ),
    (
        "{\"cursor\":0,\"events\":[[7],[0,\"1\"],[7],[1,\"2\"]],\"format\":\"reactor-session\",\"inputs\":[[\"q\",\"Int\"],[\"p\",\"Int\"]],\"version\":1}",
        Seen::Session(0, 4),
    ),
    (
        "{\"cursor\":0,\"events\":[[0,\"1\"],[1,\"2\"]],\"format\":\"reactor-session\",\"inputs\":[[\"p\",\"Int\"],[\"p\",\"Bool\"]],\"version\":1}",
        Seen::Bad,
    ),
    (
        "{\"cursor\":1,\"events\":[[0,\"True\"]],\"format\":\"reactor-session\",\"inputs\":[[\"p\",\"Bool\"]],\"version\":1}",
        Seen::Session(1, 1),
    ),
    (
        "{\"cursor\":1,\"events\":[[0,\"true\"]],\"format\":\"reactor-session\",\"inputs\":[[\"p\",\"Bool\"]],\"version\":1}",
        Seen::Bad,
    ),
    (
        "{\"cursor\":1,\"events\":[[0,\"True\"]],\"format\":\"reactor-session\",\"inputs\":[[\"p\",\"Int\"]],\"version\":1}",
        Seen::Bad,
    ),
    (
        "{\"cursor\":1,\"events\":[[0,\"( )\"]],\"format\":\"reactor-session\",\"inputs\":[[\"p\",\"()\"]],\"version\":1}",
        Seen::Session(1, 1),
    ),
    (
        "{\"cursor\":1,\"events\":[[0,\"\"]],\"format\":\"reactor-session\",\"inputs\":[[\"p\",\"()\"]],\"version\":1}",
        Seen::Bad,
    ),
    (
        "{\"cursor\":1,\"events\":[[0,\"(1 , True)\"]],\"format\":\"reactor-session\",\"inputs\":[[\"p\",\"(Int,Bool)\"]],\"version\":1}",
        Seen::Session(1, 1),
    ),
    (
        "{\"cursor\":1,\"events\":[[0,\"(1,True)\"]],\"format\":\"reactor-session\",\"inputs\":[[\"p\",\"(Int, Bool)\"]],\"version\":1}",
        Seen::Bad,
    ),
    (
        "{\"cursor\":1,\"events\":[[0,\"{y=True,x=1}\"]],\"format\":\"reactor-session\",\"inputs\":[[\"p\",\"{ x : Int, y : Bool }\"]],\"version\":1}",
        Seen::Session(1, 1),
    ),
    (
        "{\"cursor\":1,\"events\":[[0,\"{ x = 1, y = True }\"]],\"format\":\"reactor-session\",\"inputs\":[[\"p\",\"{ y : Bool, x : Int }\"]],\"version\":1}",
        Seen::Bad,
    ),
    (
        "{\"cursor\":1,\"events\":[[0,\"{ x = 1, x = 2 }\"]],\"format\":\"reactor-session\",\"inputs\":[[\"p\",\"{ x : Int }\"]],\"version\":1}",
        Seen::Bad,
    ),
    (
        "{\"cursor\":1,\"events\":[[0,\"Just[1,2]\"]],\"format\":\"reactor-session\",\"inputs\":[[\"p\",\"Maybe (List Int)\"]],\"version\":1}",
        Seen::Session(1, 1),
    ),
    (
        "{\"cursor\":1,\"events\":[[0,\"Nothing\"]],\"format\":\"reactor-session\",\"inputs\":[[\"p\",\"Maybe List Int\"]],\"version\":1}",
        Seen::Bad,
    ),
    (
        "{\"cursor\":1,\"events\":[[0,\"Just5\"]],\"format\":\"reactor-session\",\"inputs\":[[\"p\",\"Maybe Int\"]],\"version\":1}",
        Seen::Bad,
    ),
    (
        "{\"cursor\":1,\"events\":[[0,\"\\\"\\\\n\\\\'\\\"\"]],\"format\":\"reactor-session\",\"inputs\":[[\"p\",\"String\"]],\"version\":1}",
        Seen::Session(1, 1),
    ),
    (
        "{\"cursor\":1,\"events\":[[0,\"\\\"a\\nb\\\"\"]],\"format\":\"reactor-session\",\"inputs\":[[\"p\",\"String\"]],\"version\":1}",
        Seen::Bad,
    ),
    (
        "{\"cursor\":1,\"events\":[[0,\"\\\"a\"]],\"format\":\"reactor-session\",\"inputs\":[[\"p\",\"String\"]],\"version\":1}",
        Seen::Bad,
    ),
    (
        "{\"cursor\":1,\"events\":[[0,\"()\"]],\"format\":\"reactor-session\",\"inputs\":[[\"p\",\"Signal\"]],\"version\":1}",
        Seen::Bad,
    ),
    (
        "{\"cursor\":1,\"events\":[[0,\"\\u0028\\u0029\"]],\"format\":\"reactor-session\",\"inputs\":[[\"Mouse.clic\\u006bs\",\"()\"]],\"version\":1}",
        Seen::Session(1, 1),
    ),
    (
        "{\"cursor\":1,\"events\":[[0,\"\\\"\\ud83d\\ude00\\\"\"]],\"format\":\"reactor-session\",\"inputs\":[[\"p\",\"String\"]],\"version\":1}",
        Seen::Session(1, 1),
    ),
    (
        "{\"cursor\":1,\"events\":[[0,\"\\\"\\ud83d\\\"\"]],\"format\":\"reactor-session\",\"inputs\":[[\"p\",\"String\"]],\"version\":1}",
        Seen::Bad,
    ),
    (
        "{\"cursor\":1,\"events\":[[0,\"\\\"\\ude00\\ud83d\\\"\"]],\"format\":\"reactor-session\",\"inputs\":[[\"p\",\"String\"]],\"version\":1}",
        Seen::Bad,
    ),
    (
        "{\"cursor\":1,\"events\":[[0,\"\\\"\\u0000\\u001f\\/\\\"\"]],\"format\":\"reactor-session\",\"inputs\":[[\"p\",\"String\"]],\"version\":1}",
        Seen::Session(1, 1),
    ),
    (
        "{\"cursor\":1,\"events\":[[0,\"\\\"\\x41\\\"\"]],\"format\":\"reactor-session\",\"inputs\":[[\"p\",\"String\"]],\"version\":1}",
        Seen::Bad,
    ),
    (
        "{\"cursor\":1,\"events\":[[0,\"\\\"ü€\\\"\"]],\"format\":\"reactor-session\",\"inputs\":[[\"p\",\"String\"]],\"version\":1}",
        Seen::Session(1, 1),
    ),
    (
        "\n{ \"events\" : [ [ 0 , \"5\" ] ,\t[ 7 ] ] ,\r\n\"cursor\":2,\"version\":1,\"inputs\":[[ \"p\",\"Int\" ]],\"format\":\"reactor-session\"}\n",
        Seen::Session(2, 2),
    ),
    (
        "{\"cursor\":0,\"events\":[],\"format\":\"reactor-session\",\"inputs\":[],\"version\":1}x",
        Seen::Bad,
    ),
    (
        "{\"cursor\":0,\"events\":[],\"format\":\"reactor-session\",\"inputs\":[],\"version\":1},{\"cursor\":0,\"events\":[],\"format\":\"reactor-session\",\"inputs\":[],\"version\":1}",
        Seen::Bad,
    ),
    (
        "﻿{\"cursor\":0,\"events\":[],\"format\":\"reactor-session\",\"inputs\":[],\"version\":1}",
        Seen::Bad,
    ),
    (
        "[{\"cursor\":0,\"events\":[],\"format\":\"reactor-session\",\"inputs\":[],\"version\":1}]",
        Seen::Bad,
    ),
    (
        "{\"cursor\":1,\"events\":[[0,\"5\"]],\"format\":\"reactor-session\",\"inputs\":[[\"a'b_9.c\",\"Int\"]],\"version\":1}",
        Seen::Session(1, 1),
    ),
    (
        "{\"cursor\":1,\"events\":[[0,\"5\"]],\"format\":\"reactor-session\",\"inputs\":[[\"9\",\"Int\"]],\"version\":1}",
        Seen::Session(1, 1),
    ),
    (
        "{\"cursor\":1,\"events\":[[0,\"5\"]],\"format\":\"reactor-session\",\"inputs\":[[\"p-q\",\"Int\"]],\"version\":1}",
        Seen::Bad,
    ),
    (
        "{\"cursor\":1,\"events\":[[0,\"5\"]],\"format\":\"reactor-session\",\"inputs\":[[\"pö\",\"Int\"]],\"version\":1}",
        Seen::Bad,
    ),
    (
        "{\"cursor\":1,\"events\":[[0,\"5\"]],\"format\":\"reactor-session\",\"inputs\":[[\" p\",\"Int\"]],\"version\":1}",
        Seen::Bad,
    ),
    (
        "{\"cursor\":1,\"events\":[[0,\"5\"]],\"format\":\"reactor-session\",\"inputs\":[[\"p\\n\",\"Int\"]],\"version\":1}",
        Seen::Bad,
    ),
];
